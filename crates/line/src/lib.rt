// A line for those who wait: who joins last stands at the back, and the oldest is served first.
// It lies in slots that the caller lends, since a VecDeque would take its memory from the heap. A slot that was freed serves again,
// so the slots are a ring.
#![tactic(auto)]

ghost use Rattle.std.specs.Prelude.{◌≤◌, length};

mod calls;
mod looks;
pub mod refusal;
mod ring;
#[cfg(test)]
mod tests;

// `count` of the slots are in use. They begin at `first`, or at the first slot of all where `first` lies behind the last, and go on
// from the last slot to the first.
#[derive(Drop)]
pub struct Line<'a, T> {
    slots: &'a mut [T],
    first: usize,
    count: usize,
    ghost within: { (first ≤ length slots.now) × (count ≤ length slots.now) },
}

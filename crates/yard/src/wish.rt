// What the yard is asked to do with its trains, one wish a move.
#[derive(Clone, Copy)]
pub enum Wish {
    // a new train comes in by a border block
    Enter { block: u8 },
    // the front of a train goes on into the next block
    Forward { train: usize },
    // the rear of a train clears its block
    Clear { train: usize },
}

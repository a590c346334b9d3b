// A table of a fixed size, whose first places are in use: the list of what was pushed, in memory that never grows.
#![tactic(auto)]

ghost use Rattle.std.specs.Prelude.{◌≡◌, ◌≤◌, ⊤, length};

use std::alloc::AllocError;

mod calls;
#[cfg(test)]
mod tests;

// The first `len` places are the items.
pub struct Table<T, const N: usize> {
    items: [T; N],
    len: usize,
    ghost fits: { (len ≤ N) × (length items ≡ N) },
}

// Every place is in use.
#[derive(Clone, Copy, PartialEq, Eq)]
pub struct NoRoom;

// By hand: beside a ghost field, `Clone` cannot be derived for a generic struct. A copy takes no memory from the heap, so it never
// fails.
impl<T: Copy, const N: usize> Clone for Table<T, N> {
    ghost is_clone = { λ x y. y ≡ x };

    ghost is_infallible = { λ _. ⊤ };

    fn clone(&self) -> Result<Self, AllocError> {
        Ok(*self)
    }
}

impl<T: Copy, const N: usize> Copy for Table<T, N> {}

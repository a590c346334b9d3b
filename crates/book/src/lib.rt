// The dispatcher's book: what each block is reserved for, which blocks are occupied or in possession, where each route stands,
// and the rules by which this changes. The book knows the sheet and nothing of the ground.
#![tactic(auto)]

use state::RouteState;

mod calls;
mod guards;
mod looks;
pub mod refusal;
mod rows;
pub mod state;

// What the book has of a block.
#[derive(Clone, Copy, Default)]
pub(crate) struct Entry {
    // the route that the block is reserved for
    holder: Option<u8>,
    occupied: bool,
    // a track gang has taken the block
    possessed: bool,
}

#[derive(Drop)]
pub struct Book {
    // all 64 blocks have an entry and all 32 routes a state, so no length stands beside
    blocks: [Entry; 64],
    states: [RouteState; 32],
    // how many reserves were accepted; it stays at the largest number of its type
    reserves: u32,
}

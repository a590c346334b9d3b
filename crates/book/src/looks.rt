// What the book says. A block or a route that does not exist has no entry.
ghost use Rattle.std.specs.Prelude.{◌≡◌};
ghost use Rattle.book.specs.Books.{entry_of, holder_of, occupied_in, possessed_in, state_of};

use crate::state::RouteState;
use crate::{Book, Entry};

impl Book {
    pub(crate) fn entry(&self, block: u8) -> Entry
        ensures { result ≡ entry_of self.now block }
    {
        self.blocks.get(block as usize).copied().unwrap_or_default()
    }

    // The route that a block is reserved for.
    pub fn holder(&self, block: u8) -> Option<u8>
        ensures { result ≡ holder_of self.now block }
    {
        self.entry(block).holder
    }

    pub fn is_occupied(&self, block: u8) -> bool
        ensures { result ≡ occupied_in self.now block }
    {
        self.entry(block).occupied
    }

    pub fn in_possession(&self, block: u8) -> bool
        ensures { result ≡ possessed_in self.now block }
    {
        self.entry(block).possessed
    }

    pub fn state(&self, route: u8) -> RouteState
        ensures { result ≡ state_of self.now route }
    {
        self.states
            .get(route as usize)
            .copied()
            .unwrap_or(RouteState::Free)
    }

    // How many reserves were accepted.
    pub fn reserves(&self) -> u32
        ensures { result ≡ self.now.reserves }
    {
        self.reserves
    }
}

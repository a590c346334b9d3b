// The changes of the book.
// A route comes as its number and its steps: a struct of both would be taken apart at once in every body, and in every contract.
ghost use Rattle.std.specs.Prelude.{◌≡◌};
ghost use Rattle.book.specs.declared.state.RouteState.TheVariants.{Formed};
ghost use Rattle.std.specs.Fn.{FnOnceReturnsAtMut};
ghost use Rattle.book.specs.declared.Entry.{Entry};
ghost use Rattle.book.specs.Books.{entry_of, new_book, with_state, with_holders, with_entry};
ghost use Rattle.book.specs.Guards.{may_reserve, may_free, may_take, may_give};
ghost use Rattle.book.specs.Rules.{reserve_in, cancelled_book, free_in, take_in, give_in, noted_if};

use crate::refusal::Refusal;
use crate::rows::put;
use crate::state::RouteState;
use crate::{Book, Entry};
use network::route::Step;
use trackside::answers::{Fault, Moved};

impl Book {
    // Nothing is reserved, occupied or in possession.
    pub fn new() -> Book
        ensures { result ≡ new_book }
    {
        Book {
            blocks: [Entry::default(); 64],
            states: [RouteState::Free; 32],
            reserves: 0,
        }
    }

    // Changes the entry of a block. A block that does not exist has none.
    fn change<F: FnOnce(&mut Entry)>(&mut self, block: u8, how: F)
        requires { F.IsAlwaysCallable how }
        ensures { (entry : Entry) × FnOnceReturnsAtMut F.FnOnce how (entry_of self.old block) tt entry × (self.new ≡ with_entry self.old block (λ e. entry)) }
    {
        let mut entry = self.entry(block);
        how(&mut entry);
        put(&mut self.blocks, block, entry);
    }

    // All blocks of a route are reserved for a route, or let go.
    fn set_holders(&mut self, steps: &[Step], holder: Option<u8>)
        ensures { self.new ≡ with_holders self.old steps.now holder }
    {
        for step in steps {
            self.change(step.block, |entry| entry.holder = holder);
        }
    }

    fn may_reserve(&self, route: u8, steps: &[Step]) -> Result<(), Refusal>
        ensures { result ≡ may_reserve self.now route steps.now }
    {
        if self.state(route) != RouteState::Free {
            return Err(Refusal::RouteNotFree { route });
        }
        steps
            .iter()
            .try_for_each(|step| self.not_possessed(step.block))?;
        steps
            .iter()
            .try_for_each(|step| self.not_reserved(step.block))
    }

    // Reserves all blocks of a route for it, and answers how many they are.
    pub fn reserve(&mut self, route: u8, steps: &[Step]) -> Result<usize, Refusal>
        ensures { (result, self.new) ≡ reserve_in self.old route steps.now }
    {
        self.may_reserve(route, steps)?;
        self.set_holders(steps, Some(route));
        put(&mut self.states, route, RouteState::Reserved);
        self.reserves = self.reserves.saturating_add(1);
        Ok(steps.len())
    }

    // Notes that the points of a route were seen to lie right.
    pub fn form(&mut self, route: u8)
        ensures { self.new ≡ with_state self.old route Formed }
    {
        put(&mut self.states, route, RouteState::Formed);
    }

    // Lets a route and all its blocks go.
    pub fn release(&mut self, route: u8, steps: &[Step])
        ensures { self.new ≡ cancelled_book self.old route steps.now }
    {
        self.set_holders(steps, None);
        put(&mut self.states, route, RouteState::Free);
    }

    fn may_free(&self, route: u8, steps: &[Step]) -> Result<(), Refusal>
        ensures { result ≡ may_free self.now route steps.now }
    {
        if self.state(route) != RouteState::Formed {
            return Err(Refusal::RouteNotFormed { route });
        }
        steps
            .iter()
            .try_for_each(|step| self.not_held(route, step.block))
    }

    // Frees a route behind its train.
    pub fn free(&mut self, route: u8, steps: &[Step]) -> Result<usize, Refusal>
        ensures { (result, self.new) ≡ free_in self.old route steps.now }
    {
        self.may_free(route, steps)?;
        put(&mut self.states, route, RouteState::Free);
        Ok(0)
    }

    fn may_take(&self, block: u8) -> Result<(), Refusal>
        ensures { result ≡ may_take self.now block }
    {
        self.not_possessed(block)?;
        self.not_reserved(block)
    }

    // Gives a block into the possession of a track gang.
    pub fn take(&mut self, block: u8) -> Result<(), Refusal>
        ensures { (result, self.new) ≡ take_in self.old block }
    {
        self.may_take(block)?;
        self.change(block, |entry| entry.possessed = true);
        Ok(())
    }

    fn may_give(&self, block: u8) -> Result<(), Refusal>
        ensures { result ≡ may_give self.now block }
    {
        if self.in_possession(block) {
            return Ok(());
        }
        Err(Refusal::NotInPossession { block })
    }

    // Ends a possession.
    pub fn give(&mut self, block: u8) -> Result<(), Refusal>
        ensures { (result, self.new) ≡ give_in self.old block }
    {
        self.may_give(block)?;
        self.change(block, |entry| entry.possessed = false);
        Ok(())
    }

    // Notes a movement. A fault changes nothing.
    pub fn note(&mut self, moved: Result<Moved, Fault>)
        ensures { self.new ≡ noted_if self.old moved }
    {
        match moved {
            Ok(Moved::Quiet) | Err(_) => {}
            Ok(Moved::Enter { block, .. } | Moved::Forward { block, .. }) => {
                self.change(block, |entry| entry.occupied = true);
            }
            Ok(Moved::Clear { block, .. }) => {
                self.change(block, |entry| {
                    entry.holder = None;
                    entry.occupied = false;
                });
            }
        }
    }
}

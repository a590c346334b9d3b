// What must hold of the book before a call changes it, in the order in which it is asked.
// A route comes as its number and its steps: a struct of both would be taken apart at once in every body, and in every contract.
ghost use Rattle.std.specs.Prelude.{◌≡◌};
ghost use Rattle.book.specs.Guards.{holds, held_and_empty, not_held, not_possessed, not_reserved, may_lay, may_open, may_cancel};

use crate::Book;
use crate::refusal::Refusal;
use crate::state::RouteState;
use network::route::Step;

impl Book {
    fn holds(&self, route: u8, block: u8) -> bool
        ensures { result ≡ holds self.now route block }
    {
        self.holder(block) == Some(route)
    }

    pub(crate) fn not_possessed(&self, block: u8) -> Result<(), Refusal>
        ensures { result ≡ not_possessed self.now block }
    {
        if self.in_possession(block) {
            return Err(Refusal::InPossession { block });
        }
        Ok(())
    }

    pub(crate) fn not_reserved(&self, block: u8) -> Result<(), Refusal>
        ensures { result ≡ not_reserved self.now block }
    {
        if self.holder(block).is_some() {
            return Err(Refusal::BlockReserved { block });
        }
        Ok(())
    }

    fn held_and_empty(&self, route: u8, block: u8) -> Result<(), Refusal>
        ensures { result ≡ held_and_empty self.now route block }
    {
        if !self.holds(route, block) {
            return Err(Refusal::BlockNotHeld { block });
        }
        if self.is_occupied(block) {
            return Err(Refusal::BlockOccupied { block });
        }
        Ok(())
    }

    pub(crate) fn not_held(&self, route: u8, block: u8) -> Result<(), Refusal>
        ensures { result ≡ not_held self.now route block }
    {
        if self.holds(route, block) {
            return Err(Refusal::StillHolds { block });
        }
        Ok(())
    }

    // Whether the points of a route may be laid, and the route formed.
    pub fn may_lay(&self, route: u8) -> Result<(), Refusal>
        ensures { result ≡ may_lay self.now route }
    {
        if self.state(route) != RouteState::Reserved {
            return Err(Refusal::RouteNotReserved { route });
        }
        Ok(())
    }

    // Whether the lamp of a route may be lit, as far as the book says.
    pub fn may_open(&self, route: u8, steps: &[Step]) -> Result<(), Refusal>
        ensures { result ≡ may_open self.now route steps.now }
    {
        if self.state(route) != RouteState::Formed {
            return Err(Refusal::RouteNotFormed { route });
        }
        steps
            .iter()
            .try_for_each(|step| self.held_and_empty(route, step.block))
    }

    // Whether a route may be cancelled.
    pub fn may_cancel(&self, route: u8, steps: &[Step]) -> Result<(), Refusal>
        ensures { result ≡ may_cancel self.now route steps.now }
    {
        if self.state(route) == RouteState::Free {
            return Err(Refusal::RouteFree { route });
        }
        steps
            .iter()
            .try_for_each(|step| self.held_and_empty(route, step.block))
    }
}

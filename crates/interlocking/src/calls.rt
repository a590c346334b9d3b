// The dispatcher's calls. Each is refused while the interlocking is out of service, and then nothing below is called.
ghost use Rattle.std.specs.Prelude.{◌≡◌};
ghost use Rattle.interlocking.specs.Calls.{opened, reserve_at, form_at, free_at};
ghost use Rattle.interlocking.specs.Promises.{Performed, Lay, Open, Watch, Cancel};

use crate::Interlocking;
use crate::acts::{light, make_move};
use crate::guards::{first_block, lamp_red, steps_for};
use crate::points::{all_lie_right, lay_points};
use book::refusal::Refusal;
use trackside::Work;
use trackside::answers::{Lamp, Moved, Stuck};

// What an open answers to what its lamp answered.
fn opened(block: u8, told: Result<(), Stuck>) -> Result<usize, Refusal>
    ensures { result ≡ opened block told }
{
    told.map(|()| 0)
        .map_err(|_| Refusal::LampStayedRed { block })
}

impl<T: Work> Interlocking<T> {
    // Reserves all blocks of a route for it, and answers how many they are.
    pub fn reserve(&mut self, route: u8) -> Result<usize, Refusal>
        ensures { (result, self.new) ≡ reserve_at self.old route }
    {
        self.in_service()?;
        let steps = steps_for(&self.sheet, route)?;
        self.book.reserve(route, steps)
    }

    // Throws the points of a reserved route that lie wrong, and answers how many were thrown.
    pub fn lay(&mut self, route: u8) -> Result<usize, Refusal>
        ensures { Performed T.Look self.old (Lay route result) self.new }
    {
        self.in_service()?;
        let steps = steps_for(&self.sheet, route)?;
        self.book.may_lay(route)?;
        lay_points(&mut self.trackside, steps)
    }

    // Notes that a route is formed, where all its points are seen to lie right.
    pub fn form(&mut self, route: u8) -> Result<usize, Refusal>
        ensures { (result, self.new) ≡ form_at (T.Look.as_ground self.old.trackside) self.old route }
    {
        self.in_service()?;
        let steps = steps_for(&self.sheet, route)?;
        self.book.may_lay(route)?;
        all_lie_right(&self.trackside, steps)?;
        self.book.form(route);
        Ok(0)
    }

    // Lights the lamp of a formed route, which lets a train in.
    #[tactic(auto, using(crate::proofs::Lit::opens))]
    pub fn open(&mut self, route: u8) -> Result<usize, Refusal>
        ensures { Performed T.Look self.old (Open route result) self.new }
    {
        self.in_service()?;
        let steps = steps_for(&self.sheet, route)?;
        self.book.may_open(route, steps)?;
        let block = first_block(steps);
        lamp_red(&self.trackside, block)?;
        opened(block, light(&mut self.trackside, block, Lamp::Green))
    }

    // Puts the lamp of a route to red and lets its blocks go, and answers how many they are.
    pub fn cancel(&mut self, route: u8) -> Result<usize, Refusal>
        ensures { Performed T.Look self.old (Cancel route result) self.new }
    {
        self.in_service()?;
        let steps = steps_for(&self.sheet, route)?;
        self.book.may_cancel(route, steps)?;
        let _ = light(&mut self.trackside, first_block(steps), Lamp::Red);
        self.book.release(route, steps);
        Ok(steps.len())
    }

    // Frees a route behind its train, once it holds no block any more.
    pub fn free(&mut self, route: u8) -> Result<usize, Refusal>
        ensures { (result, self.new) ≡ free_at self.old route }
    {
        self.in_service()?;
        let steps = steps_for(&self.sheet, route)?;
        self.book.free(route, steps)
    }

    // Makes one move, notes it in the book, and answers it.
    pub fn watch(&mut self) -> Result<Moved, Refusal>
        ensures { Performed T.Look self.old (Watch result) self.new }
    {
        self.in_service()?;
        let moved = make_move(&mut self.trackside);
        self.book.note(moved);
        Ok(moved?)
    }
}

// One move of a yard: the oldest wish, met or not.
ghost use Rattle.std.specs.Prelude.{◌≡◌};
ghost use Rattle.yard.specs.Steps.{MovesOnly, Steps};
ghost use Rattle.yard.specs.Views.{view, granted};

use crate::Yard;
use crate::fault::YardFault;
use crate::wish::Wish;
use trackside::answers::{Fault, Moved};

impl<'a> Yard<'a> {
    fn grant(&mut self, wish: Wish) -> Result<Moved, YardFault>
        ensures view { (result, view self.new) ≡ granted wish (view self.old) }
        ensures rest { MovesOnly self.old self.new }
    {
        // A wish is what was asked for, data that waits in the line: it is not a step that a caller chooses and could hand over.
        match wish {
            Wish::Enter { block } => self.enter(block),
            Wish::Forward { train } => self.forward(train),
            Wish::Clear { train } => self.clear(train),
        }
    }

    pub(crate) fn told_step(&mut self) -> Result<Moved, Fault>
        ensures { Steps self.old result self.new }
    {
        let Some(wish) = self.wishes.take() else {
            return Ok(Moved::Quiet);
        };
        Ok(self.grant(wish)?)
    }
}

// What is told to a trackside, by name, so that a call can say which acts it made.
ghost use Rattle.std.specs.Prelude.{[], ◌∷◌};
ghost use Rattle.interlocking.specs.Points.{Chain, Light, Move};

use trackside::Work;
use trackside::answers::{Fault, Lamp, Moved, Stuck};

pub(crate) fn light<T: Work>(trackside: &mut T, block: u8, lamp: Lamp) -> Result<(), Stuck>
    ensures { Chain T.Look trackside.old (Light block lamp result ∷ []) trackside.new }
{
    trackside.light(block, lamp)
}

pub(crate) fn make_move<T: Work>(trackside: &mut T) -> Result<Moved, Fault>
    ensures { Chain T.Look trackside.old (Move result ∷ []) trackside.new }
{
    trackside.step()
}

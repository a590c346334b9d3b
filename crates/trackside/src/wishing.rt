// A trackside whose trains do as they are wished.
ghost use Rattle.std.specs.Prelude.{◌≡◌, Result};
ghost use Rattle.line.specs.declared.refusal.Full.{Full};

use crate::Work;
use line::refusal::Full;

// A wish waits in the make's own line until a move takes it. Joining the line changes nothing on the ground.
pub trait Wishing: Work {
    type Wish: Drop;

    // which answer and state may follow which state, when a wish joins the line
    ghost joins: { Self → Self.Wish → Result Unit Full → Self → Type 0 };

    fn join(&mut self, wish: Self::Wish) -> Result<(), Full>
        ensures joins { joins self.old wish result self.new }
        ensures same_ground { Self.Look.as_ground self.new ≡ Self.Look.as_ground self.old };
}

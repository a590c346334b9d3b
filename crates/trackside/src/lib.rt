// The interface between an interlocking and the track: what can be seen of a yard, what can be told to it, and the laws that
// every yard keeps.
#![tactic(auto)]

ghost use Rattle.std.specs.Prelude.{◌≡◌, ℕ, Result};
ghost use Rattle.network.specs.declared.track.Position.{Position};
ghost use Rattle.trackside.specs.declared.answers.Lamp.{Lamp};
ghost use Rattle.trackside.specs.declared.answers.Stuck.{Stuck};
ghost use Rattle.trackside.specs.declared.answers.Fault.{Fault};
ghost use Rattle.trackside.specs.declared.answers.Moved.{Moved};
ghost use Rattle.trackside.specs.Ground.{Ground, lamp_of};
ghost use Rattle.trackside.specs.Laws.{Lawful};

use answers::{Fault, Lamp, Moved, Stuck};
use network::track::{Joint, Kind, Position};

pub mod answers;
pub mod page;
pub mod picture;
pub mod plant;
pub mod wishing;

// What can be seen. Looking changes nothing. What does not exist is seen as no kind, an outer end, a point that lies left, a
// red lamp, not occupied.
pub trait Look {
    // The most blocks that this make carries.
    const MOST_BLOCKS: usize;

    ghost most: { ℕ };

    // the yard as it is
    ghost as_ground: { Self → Ground };

    // which answer and state may follow which state, of a throw, a light and a move
    ghost throws: { Self → ℕ → Position → Result Unit Stuck → Self → Type 0 };

    ghost lights: { Self → ℕ → Lamp → Result Unit Stuck → Self → Type 0 };

    ghost moves: { Self → Result Moved Fault → Self → Type 0 };

    ghost lawful: { Lawful most as_ground throws lights moves };

    // The constant above, as a clause can speak of it.
    fn carries() -> usize
        ensures { result ≡ most };

    fn block_count(&self) -> usize
        ensures { result ≡ (as_ground self.now).count };

    fn kind(&self, block: u8) -> Option<Kind>
        ensures { result ≡ (as_ground self.now).kind block };

    fn joint(&self, block: u8, end: u8) -> Joint
        ensures { result ≡ (as_ground self.now).joint block end };

    fn position(&self, block: u8) -> Position
        ensures { result ≡ (as_ground self.now).lies block };

    fn lamp(&self, block: u8) -> Lamp
        ensures { result ≡ lamp_of ((as_ground self.now).green block) };

    fn occupied(&self, block: u8) -> bool
        ensures { result ≡ (as_ground self.now).occupied block };
}

// What can be told. Each call makes one step of the make's own.
pub trait Work: Look {
    fn throw(&mut self, block: u8, position: Position) -> Result<(), Stuck>
        ensures { Self.Look.throws self.old block position result self.new };

    fn light(&mut self, block: u8, lamp: Lamp) -> Result<(), Stuck>
        ensures { Self.Look.lights self.old block lamp result self.new };

    fn step(&mut self) -> Result<Moved, Fault>
        ensures { Self.Look.moves self.old result self.new };
}

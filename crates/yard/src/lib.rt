// A model of a yard, for trying things out: a plant, and trains that enter, go forward and clear as wished, one wish a move.
// Its plant, trains and wishes lie in memory that the caller lends, so that a yard itself is small and can be handed on.
// Points can be clamped and lamps dead: those do not follow what they are told.
#![tactic(auto)]

ghost use Rattle.std.specs.Prelude.{◌≡◌, true, length};
ghost use Rattle.trackside.specs.Plants.{stored};
ghost use Rattle.yard.specs.Fleets.{stock};
ghost use Rattle.yard.specs.Sound.{sound_on};

use fleet::Fleet;
use line::Line;
use trackside::plant::Plant;
use wish::Wish;

pub mod fault;
mod fleet;
pub mod make;
mod moves;
mod start;
mod steps;
mod tells;
#[cfg(test)]
mod tests;
pub mod train;
pub mod wish;

// The most blocks that a yard carries.
const MOST_BLOCKS: usize = 64;

// Each train stands on one block or more, all of them blocks of the plant.
// Bit b of `clamped` says that the point of block b never moves, and bit b of `dead` that the lamp there never turns green.
#[derive(Drop)]
pub struct Yard<'a> {
    plant: &'a mut Plant,
    clamped: u64,
    dead: u64,
    fleet: Fleet<'a>,
    wishes: Line<'a, Wish>,
    pub ghost sound: { sound_on (length (stored plant.now).blocks) (stock fleet) ≡ true },
}

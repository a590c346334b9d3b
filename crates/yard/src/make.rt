// A yard seen and told as a trackside.
ghost use Rattle.std.specs.Prelude.{◌≡◌};
ghost use Rattle.yard.specs.Steps.{Throws, Lights, Steps, Joins};
ghost use Rattle.yard.specs.Views.{yard_ground};
ghost use Rattle.yard.specs.YardLaws.{yard_lawful};

use crate::wish::Wish;
use crate::{MOST_BLOCKS, Yard};
use line::refusal::Full;
use network::track::{Joint, Kind, Position};
use trackside::answers::{Fault, Lamp, Moved, Stuck};
use trackside::wishing::Wishing;
use trackside::{Look, Work};

impl Look for Yard<'_> {
    const MOST_BLOCKS: usize = MOST_BLOCKS;

    ghost most = { 64 };

    ghost as_ground = { yard_ground };

    ghost throws = { Throws };

    ghost lights = { Lights };

    ghost moves = { Steps };

    ghost lawful = { yard_lawful };

    fn carries() -> usize
        ensures { result ≡ 64 }
    {
        MOST_BLOCKS
    }

    // What is looked at in the plant is handed on by each make that has one: a trait that did it for both would have to name all
    // that stands above.
    fn block_count(&self) -> usize {
        self.plant.block_count()
    }

    fn kind(&self, block: u8) -> Option<Kind> {
        self.plant.kind(block)
    }

    fn joint(&self, block: u8, end: u8) -> Joint {
        self.plant.joint(block, end)
    }

    fn position(&self, block: u8) -> Position {
        self.plant.position(block)
    }

    fn lamp(&self, block: u8) -> Lamp {
        self.plant.lamp(block)
    }

    fn occupied(&self, block: u8) -> bool {
        self.fleet.is_in(block)
    }
}

impl Work for Yard<'_> {
    fn throw(&mut self, block: u8, position: Position) -> Result<(), Stuck> {
        self.told_throw(block, position)
    }

    fn light(&mut self, block: u8, lamp: Lamp) -> Result<(), Stuck> {
        self.told_light(block, lamp)
    }

    fn step(&mut self) -> Result<Moved, Fault> {
        self.told_step()
    }
}

impl Wishing for Yard<'_> {
    type Wish = Wish;

    ghost joins = { Joins };

    fn join(&mut self, wish: Wish) -> Result<(), Full> {
        self.wish(wish)
    }
}

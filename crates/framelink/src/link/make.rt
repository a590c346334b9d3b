// What can be seen of a link, and what can be told to it.
ghost use Rattle.std.specs.Prelude.{◌≡◌};
ghost use Rattle.framelink.specs.LinkLaws.{link_lawful};
ghost use Rattle.framelink.specs.Views.{link_ground, LinkThrows, LinkLights, LinkMoves};

use crate::frame::Change;
use crate::link::{FrameLink, MOST};
use network::track::{Joint, Kind, Position};
use trackside::answers::{Fault, Lamp, Moved, Stuck};
use trackside::{Look, Work};

impl Look for FrameLink<'_> {
    const MOST_BLOCKS: usize = MOST;

    ghost most = { 32 };

    ghost as_ground = { link_ground };

    ghost throws = { LinkThrows };

    ghost lights = { LinkLights };

    ghost moves = { LinkMoves };

    ghost lawful = { link_lawful };

    fn carries() -> usize
        ensures { result ≡ 32 }
    {
        Self::MOST_BLOCKS
    }

    // What is looked at in the plant is handed on, as by the yard: a trait that did it for both would have to name all that stands above.
    fn block_count(&self) -> usize {
        self.plant.block_count()
    }

    fn kind(&self, block: u8) -> Option<Kind> {
        self.plant.kind(block)
    }

    fn joint(&self, block: u8, end: u8) -> Joint {
        self.plant.joint(block, end)
    }

    fn position(&self, block: u8) -> Position {
        self.plant.position(block)
    }

    fn lamp(&self, block: u8) -> Lamp {
        self.plant.lamp(block)
    }

    fn occupied(&self, block: u8) -> bool {
        self.trains
            .as_slice()
            .iter()
            .any(|train| train.stands_in(block))
    }
}

impl Work for FrameLink<'_> {
    fn throw(&mut self, block: u8, position: Position) -> Result<(), Stuck> {
        self.plant.lay(block, position)
    }

    fn light(&mut self, block: u8, lamp: Lamp) -> Result<(), Stuck> {
        self.plant.light(block, lamp)
    }

    fn step(&mut self) -> Result<Moved, Fault> {
        let at = self.at;
        let Some(heard) = self.hear()? else {
            return Ok(Moved::Quiet);
        };
        let moved = match heard.change {
            Change::Occupied => self.occupy(heard.block, at)?,
            Change::Cleared => self.clear(heard.block, at)?,
        };
        Ok(moved)
    }
}

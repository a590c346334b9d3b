// Points thrown and lamps lit, unless they are clamped or dead. Block and position come as a trackside is told them.
ghost use Rattle.std.specs.Prelude.{◌≡◌};
ghost use Rattle.yard.specs.Steps.{Throws, Lights};
ghost use Rattle.yard.specs.Views.{named, held};
ghost use Rattle.trackside.specs.Plants.{stored};

use crate::Yard;
use network::track::{Kind, Position};
use trackside::answers::{Lamp, Stuck};
use trackside::plant::Plant;

// Whether a block is in a set.
fn contains(set: u64, block: u8) -> bool
    ensures { result ≡ named set block }
{
    block < 64 && (set >> block) % 2 == 1
}

// What a throw of a clamped point answers.
fn held(plant: &Plant, block: u8, position: Position) -> Result<(), Stuck>
    ensures { result ≡ held (stored plant.now) block position }
{
    if plant.kind(block) == Some(Kind::Point) && plant.position(block) == position {
        Ok(())
    } else {
        Err(Stuck)
    }
}

impl<'a> Yard<'a> {
    pub(crate) fn told_throw(&mut self, block: u8, position: Position) -> Result<(), Stuck>
        ensures { Throws self.old block position result self.new }
    {
        if contains(self.clamped, block) {
            return held(self.plant, block, position);
        }
        self.plant.lay(block, position)
    }

    pub(crate) fn told_light(&mut self, block: u8, lamp: Lamp) -> Result<(), Stuck>
        ensures { Lights self.old block lamp result self.new }
    {
        if lamp == Lamp::Green && contains(self.dead, block) {
            return match self.plant.lamp(block) {
                Lamp::Green => Ok(()),
                Lamp::Red => Err(Stuck),
            };
        }
        self.plant.light(block, lamp)
    }
}

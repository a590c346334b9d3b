// What can be told to a plant.
ghost use Rattle.std.specs.Prelude.{◌≡◌};
ghost use Rattle.trackside.specs.Plants.{stored, laid, lit};

use crate::answers::{Lamp, Stuck};
use crate::plant::Plant;
use network::track::{Kind, Position};

impl Plant {
    // Lays the point of a block, where there is one.
    pub fn lay(&mut self, block: u8, position: Position) -> Result<(), Stuck>
        ensures { (result, stored self.new) ≡ laid (stored self.old) block position }
    {
        match self.kind(block) {
            Some(Kind::Point) => {
                self.settings[block as usize].position = position;
                Ok(())
            }
            _ => Err(Stuck),
        }
    }

    // Lights the lamp of a block, where there is one.
    pub fn light(&mut self, block: u8, lamp: Lamp) -> Result<(), Stuck>
        ensures { (result, stored self.new) ≡ lit (stored self.old) block lamp }
    {
        self.lamp_end(block).ok_or(Stuck)?;
        self.settings[block as usize].lamp = lamp;
        Ok(())
    }
}

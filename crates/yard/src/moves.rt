// Trains that enter, go forward and clear.
ghost use Rattle.std.specs.Prelude.{◌≡◌};
ghost use Rattle.trackside.specs.Plants.{stored};
ghost use Rattle.yard.specs.Steps.{MovesOnly};
ghost use Rattle.yard.specs.Views.{view, entered, next_of, leads_out, forwarded, cleared};

use crate::Yard;
use crate::fault::YardFault;
use network::track::Joint;
use trackside::answers::{Lamp, Moved, Stand};
use trackside::plant::Plant;

// The stand to which a way leads on from another, across a joint to a block that is there.
fn next_stand(plant: &Plant, front: Stand) -> Option<Stand>
    ensures { result ≡ next_of (stored plant.now) front }
{
    let end = plant.way(front.block, front.entered)?;
    let Joint::Joined { block, end } = plant.joint(front.block, end) else {
        return None;
    };
    let next = Stand {
        block,
        entered: end,
    };
    ((block as usize) < plant.block_count()).then_some(next)
}

// Whether a way leads from a stand to an outer end.
fn can_leave(plant: &Plant, stand: Stand) -> bool
    ensures { result ≡ leads_out (stored plant.now) stand }
{
    plant
        .way(stand.block, stand.entered)
        .is_some_and(|end| plant.joint(stand.block, end) == Joint::Outer)
}

impl<'a> Yard<'a> {
    // A new train comes in past a green lamp, which turns red.
    pub(crate) fn enter(&mut self, block: u8) -> Result<Moved, YardFault>
        ensures view { (result, view self.new) ≡ entered (view self.old) block }
        ensures rest { MovesOnly self.old self.new }
    {
        let entered = self
            .plant
            .lamp_end(block)
            .ok_or(YardFault::NoBorder { block })?;
        if self.plant.lamp(block) == Lamp::Red {
            return Err(YardFault::LampRed { block });
        }
        let stand = Stand { block, entered };
        let train = self.fleet.add(stand).ok_or(YardFault::NoRecord { block })?;
        let _ = self.plant.light(block, Lamp::Red);
        Ok(Moved::Enter { train, block })
    }

    // The front of a train goes on into the next block.
    pub(crate) fn forward(&mut self, train: usize) -> Result<Moved, YardFault>
        ensures view { (result, view self.new) ≡ forwarded (view self.old) train }
        ensures rest { MovesOnly self.old self.new }
    {
        let mut record = self.fleet.train(train).ok_or(YardFault::NoTrain { train })?;
        let next = next_stand(self.plant, record.front()).ok_or(YardFault::NoWay { train })?;
        record
            .extend(next)
            .map_err(|_| YardFault::NoStand { train })?;
        self.fleet.put(train, record);
        Ok(Moved::Forward {
            train,
            block: next.block,
        })
    }

    // The rear of a train clears its block: a longer train loses its rear stand, and one of a single stand leaves.
    pub(crate) fn clear(&mut self, train: usize) -> Result<Moved, YardFault>
        ensures view { (result, view self.new) ≡ cleared (view self.old) train }
        ensures rest { MovesOnly self.old self.new }
    {
        let mut record = self.fleet.train(train).ok_or(YardFault::NoTrain { train })?;
        let rear = record.rear();
        if record.stands().len() >= 2 {
            record.shorten();
            self.fleet.put(train, record);
        } else if can_leave(self.plant, rear) {
            self.fleet.take_out(train);
        } else {
            return Err(YardFault::NoWayOut { train });
        }
        Ok(Moved::Clear {
            train,
            block: rear.block,
        })
    }
}

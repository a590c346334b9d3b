// What a link makes of a block that is said to be occupied or cleared. Where its frame began goes beside the block, for the fault that
// may have to name it.
ghost use Rattle.std.specs.Prelude.{◌≡◌, ◌<◌, length, IfSome};
ghost use Rattle.table.specs.Tables.{items_of};
ghost use Rattle.framelink.specs.Movements.{first_with, train_goes, train_clears};
ghost use Rattle.framelink.specs.Views.{view_of, entered_in, occupied_in, cleared_in};

use crate::fault::LinkFault;
use crate::link::FrameLink;
use crate::moving::{Clearing, clears, first_with, goes};
use crate::train::Train;
use trackside::answers::{Lamp, Moved, Stand};

impl FrameLink<'_> {
    // The lowest train that can go to a block, and the end by which it enters.
    fn first_that_goes(&self, block: u8) -> Option<(usize, u8)>
        ensures first { result ≡ first_with (train_goes (view_of self.now).plant block) 0 (view_of self.now).trains }
        ensures there { IfSome result (λ found. found.0 < length (items_of self.now.trains)) }
    {
        first_with(
            self.trains.as_slice(),
            |train| goes(&self.plant, block, train),
        )
    }

    // The lowest train that may clear a block, and how.
    fn first_that_clears(&self, block: u8) -> Option<(usize, Clearing)>
        ensures first { result ≡ first_with (train_clears (view_of self.now).plant block) 0 (view_of self.now).trains }
        ensures there { IfSome result (λ found. found.0 < length (items_of self.now.trains)) }
    {
        first_with(
            self.trains.as_slice(),
            |train| clears(&self.plant, block, train),
        )
    }

    // A block is said to be occupied: the lowest train that can go there does, or a new one enters.
    pub(crate) fn occupy(&mut self, block: u8, at: usize) -> Result<Moved, LinkFault>
        requires { block < length (view_of self.old).plant.blocks }
        ensures { (result, view_of self.new) ≡ occupied_in (view_of self.old) block at }
    {
        let Some((train, entered)) = self.first_that_goes(block) else {
            return self.enter(block, at);
        };
        let mut longer = self.trains.as_slice()[train];
        longer
            .push(Stand { block, entered })
            .map_err(|_| LinkFault::Full { at })?;
        self.trains.set(train, longer);
        Ok(Moved::Forward { train, block })
    }

    // A new train enters a block past its green lamp, which turns red.
    fn enter(&mut self, block: u8, at: usize) -> Result<Moved, LinkFault>
        requires { block < length (view_of self.old).plant.blocks }
        ensures { (result, view_of self.new) ≡ entered_in (view_of self.old) block at }
    {
        let entered = self.plant.lamp_end(block).ok_or(LinkFault::NoTrain { at })?;
        if self.plant.lamp(block) != Lamp::Green {
            return Err(LinkFault::NoTrain { at });
        }
        let train = self.trains.len();
        let entering = Train::new(Stand { block, entered });
        self.trains
            .push(entering)
            .map_err(|_| LinkFault::Full { at })?;
        let _ = self.plant.light(block, Lamp::Red);
        Ok(Moved::Enter { train, block })
    }

    // A block is said to be cleared: the lowest train that may clear it does.
    pub(crate) fn clear(&mut self, block: u8, at: usize) -> Result<Moved, LinkFault>
        ensures { (result, view_of self.new) ≡ cleared_in (view_of self.old) block at }
    {
        let (train, how) = self
            .first_that_clears(block)
            .ok_or(LinkFault::NoTrain { at })?;
        match how {
            Clearing::Shortens => {
                let mut shorter = self.trains.as_slice()[train];
                shorter.shorten();
                self.trains.set(train, shorter);
            }
            Clearing::Leaves => self.trains.remove(train),
        }
        Ok(Moved::Clear { train, block })
    }
}

// Blocks given into the possession of a track gang, and back.
ghost use Rattle.std.specs.Prelude.{◌≡◌};
ghost use Rattle.interlocking.specs.Calls.{block_guard, staff_guard, take_at, end_at, give_at};

use crate::Interlocking;
use crate::staff::{Returned, Staff};
use book::refusal::Refusal;
use trackside::Work;

impl<T: Work> Interlocking<T> {
    fn has_block(&self, block: u8) -> Result<(), Refusal>
        ensures { result ≡ block_guard self.now block }
    {
        self.in_service()?;
        let network = self.sheet.network();
        network.block(block).ok_or(Refusal::NoBlock { block })?;
        Ok(())
    }

    fn knows(&self, staff: &Staff) -> Result<(), Refusal>
        ensures { result ≡ staff_guard self.now staff.now }
    {
        self.in_service()?;
        if staff.yard == self.yard {
            return Ok(());
        }
        Err(Refusal::OtherYard { block: staff.block })
    }

    // Gives a block into possession, and answers its staff.
    pub fn take(&mut self, block: u8) -> Result<Staff, Refusal>
        ensures { (result, self.new) ≡ take_at self.old block }
    {
        self.has_block(block)?;
        self.book.take(block)?;
        Ok(Staff {
            yard: self.yard,
            block,
        })
    }

    fn end_possession(&mut self, staff: &Staff) -> Result<(), Refusal>
        ensures { (result, self.new) ≡ end_at self.old staff.now }
    {
        self.knows(staff)?;
        self.book.give(staff.block)
    }

    // Ends the possession of the staff's block and spends the staff, or hands it back.
    pub fn give(&mut self, staff: Staff) -> Result<(), Returned>
        ensures { (result, self.new) ≡ give_at self.old staff }
    {
        match self.end_possession(&staff) {
            Err(refusal) => Err(Returned { refusal, staff }),
            Ok(()) => {
                let Staff { yard: _, block: _ } = staff;
                Ok(())
            }
        }
    }
}

// Wishes for the trains of a trackside that takes them.
ghost use Rattle.interlocking.specs.Wishes.{WishJoins};

use crate::Interlocking;
use book::refusal::Refusal;
use trackside::wishing::Wishing;

impl<T: Wishing> Interlocking<T> {
    // A wish joins the line of the make, where there is room. Ground and book stay as they are.
    pub fn wish(&mut self, wish: T::Wish) -> Result<(), Refusal>
        ensures { WishJoins T.Look T.Wishing.joins self.old wish result self.new }
    {
        self.in_service()?;
        self.trackside.join(wish)?;
        Ok(())
    }
}

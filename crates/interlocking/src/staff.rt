// The staff of a block that a track gang has taken: the one token that ends the possession.
ghost use Rattle.std.specs.Prelude.{◌≡◌};

use book::refusal::Refusal;

// A staff cannot be copied, made up or let go: it is had by `take` and spent by `give` alone.
pub struct Staff {
    pub(crate) yard: u8,
    pub(crate) block: u8,
}

// A staff handed back, and why.
pub struct Returned {
    pub refusal: Refusal,
    pub staff: Staff,
}

impl Staff {
    // The yard that gave the staff out.
    pub fn yard(&self) -> u8
        ensures { result ≡ self.now.yard }
    {
        self.yard
    }

    // The block that is in possession.
    pub fn block(&self) -> u8
        ensures { result ≡ self.now.block }
    {
        self.block
    }
}

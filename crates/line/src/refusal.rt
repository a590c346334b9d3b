// Why an item may not join a line.
ghost use Rattle.std.specs.Prelude.{◌≡◌};
ghost use Rattle.line.specs.Refusals.{number_of, place_of};

// A line takes no more: as many wait as it has slots.
// An enum, though of one case: it is a refusal with its number and its place, as all refusals are.
#[derive(Clone, Copy)]
pub enum Full {
    NoRoom,
}

impl Full {
    // The number by which the control room knows this refusal.
    pub fn number(&self) -> u8
        ensures { result ≡ number_of self.now }
    {
        match self {
            Full::NoRoom => 45,
        }
    }

    // The place that the refusal is about: 0, since a full line is about none.
    pub fn place(&self) -> u8
        ensures { result ≡ place_of self.now }
    {
        match self {
            Full::NoRoom => 0,
        }
    }
}

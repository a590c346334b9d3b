// Why a frame could not be taken for a movement. Each says where the frame begins.
ghost use Rattle.std.specs.Prelude.{◌≡◌};
ghost use Rattle.framelink.specs.Faults.{number_of, place_of, fault_of};

use trackside::answers::Fault;

#[derive(Clone, Copy)]
pub enum LinkFault {
    CutShort { at: usize },
    Length { at: usize },
    Version { at: usize },
    Kind { at: usize },
    NoBlock { at: usize },
    NoTrain { at: usize },
    Full { at: usize },
}

impl LinkFault {
    // The number by which the control room knows this fault.
    pub fn number(&self) -> u8
        ensures { result ≡ number_of self.now }
    {
        match self {
            LinkFault::CutShort { .. } => 60,
            LinkFault::Length { .. } => 61,
            LinkFault::Version { .. } => 62,
            LinkFault::Kind { .. } => 63,
            LinkFault::NoBlock { .. } => 64,
            LinkFault::NoTrain { .. } => 65,
            LinkFault::Full { .. } => 66,
        }
    }

    // The offset of the frame's first byte.
    pub fn place(&self) -> usize
        ensures { result ≡ place_of self.now }
    {
        match self {
            LinkFault::CutShort { at }
            | LinkFault::Length { at }
            | LinkFault::Version { at }
            | LinkFault::Kind { at }
            | LinkFault::NoBlock { at }
            | LinkFault::NoTrain { at }
            | LinkFault::Full { at } => *at,
        }
    }
}

// The yard's faults are turned in the same way: a trait that both have would be longer than the two.
impl From<LinkFault> for Fault {
    ghost from_gives = { λ f r. r ≡ fault_of f };

    fn from(fault: LinkFault) -> Fault {
        Fault {
            number: fault.number(),
            place: fault.place(),
        }
    }
}

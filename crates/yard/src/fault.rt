// Why a wish could not be met.
ghost use Rattle.std.specs.Prelude.{◌≡◌};
ghost use Rattle.yard.specs.Faults.{number_of, place_of, fault_of};

use trackside::answers::Fault;

#[derive(Clone, Copy)]
pub enum YardFault {
    // no lamp stands at the block
    NoBorder { block: u8 },
    // the lamp at the block is red
    LampRed { block: u8 },
    // no train has this number
    NoTrain { train: usize },
    // no way leads on from the front of the train
    NoWay { train: usize },
    // every record is in use
    NoRecord { block: u8 },
    // the train stands in as many blocks as its record holds
    NoStand { train: usize },
    // no way leads out from the only stand of the train
    NoWayOut { train: usize },
}

impl YardFault {
    pub fn number(&self) -> u8
        ensures { result ≡ number_of self.now }
    {
        match self {
            YardFault::NoBorder { .. } => 70,
            YardFault::LampRed { .. } => 71,
            YardFault::NoTrain { .. } => 72,
            YardFault::NoWay { .. } => 73,
            YardFault::NoRecord { .. } | YardFault::NoStand { .. } => 74,
            YardFault::NoWayOut { .. } => 75,
        }
    }

    // The block or the train that the fault is about.
    pub fn place(&self) -> usize
        ensures { result ≡ place_of self.now }
    {
        match self {
            YardFault::NoBorder { block }
            | YardFault::LampRed { block }
            | YardFault::NoRecord { block } => *block as usize,
            YardFault::NoTrain { train }
            | YardFault::NoStand { train }
            | YardFault::NoWayOut { train }
            | YardFault::NoWay { train } => *train,
        }
    }
}

// The link's faults are turned in the same way: a trait that both have would be longer than the two.
impl From<YardFault> for Fault {
    ghost from_gives = { λ f r. r ≡ fault_of f };

    fn from(fault: YardFault) -> Fault {
        Fault {
            number: fault.number(),
            place: fault.place(),
        }
    }
}

// Why a call is refused, with what the refusal is about.
ghost use Rattle.std.specs.Prelude.{◌≡◌};
ghost use Rattle.book.specs.Refusals.{number_of, place_of, line_full, out_of_service, faulty};

use line::refusal::Full;
use trackside::answers::Fault;

// Why a trackside cannot be worked by a sheet.
#[derive(Clone, Copy)]
pub enum Unfit {
    // it has not as many blocks as the sheet
    BlockCount,
    // the block is of another kind, or joined otherwise
    BlockDiffers { block: u8 },
    BlockOccupied { block: u8 },
    LampGreen { block: u8 },
}

#[derive(Clone, Copy)]
pub enum Refusal {
    OutOfService(Unfit),
    NoRoute { route: u8 },
    RouteNotFree { route: u8 },
    InPossession { block: u8 },
    BlockReserved { block: u8 },
    // not reserved, or formed already
    RouteNotReserved { route: u8 },
    PointLiesWrong { block: u8 },
    RouteNotFormed { route: u8 },
    // the block is not reserved for the route
    BlockNotHeld { block: u8 },
    BlockOccupied { block: u8 },
    LampAlreadyGreen { block: u8 },
    // the route still holds the block
    StillHolds { block: u8 },
    NoBlock { block: u8 },
    RouteFree { route: u8 },
    // the staff is of another yard
    OtherYard { block: u8 },
    NotInPossession { block: u8 },
    LineFull,
    UnknownPanel,
    LineEmpty,
    PointStuck { block: u8 },
    LampStayedRed { block: u8 },
    // a fault of the trackside, with its own number and place
    Fault(Fault),
}

impl Refusal {
    // The number by which the control room knows this refusal. The numbers follow no rule, so they stand in a table.
    pub fn number(&self) -> u8
        ensures { result ≡ number_of self.now }
    {
        match self {
            Refusal::OutOfService(Unfit::BlockCount) => 40,
            Refusal::OutOfService(Unfit::BlockDiffers { .. }) => 41,
            Refusal::OutOfService(Unfit::BlockOccupied { .. }) => 42,
            Refusal::OutOfService(Unfit::LampGreen { .. }) => 43,
            Refusal::NoRoute { .. } => 20,
            Refusal::RouteNotFree { .. } => 21,
            Refusal::InPossession { .. } => 22,
            Refusal::BlockReserved { .. } => 23,
            Refusal::RouteNotReserved { .. } => 24,
            Refusal::PointLiesWrong { .. } => 25,
            Refusal::RouteNotFormed { .. } => 26,
            Refusal::BlockNotHeld { .. } => 27,
            Refusal::BlockOccupied { .. } => 28,
            Refusal::LampAlreadyGreen { .. } => 29,
            Refusal::StillHolds { .. } => 30,
            Refusal::NoBlock { .. } => 31,
            Refusal::RouteFree { .. } => 32,
            Refusal::OtherYard { .. } => 33,
            Refusal::NotInPossession { .. } => 34,
            Refusal::LineFull => 45,
            Refusal::UnknownPanel => 46,
            Refusal::LineEmpty => 47,
            Refusal::PointStuck { .. } => 50,
            Refusal::LampStayedRed { .. } => 51,
            Refusal::Fault(_) => 52,
        }
    }

    // The block or the route that the refusal is about, 0 where it is about none, and the fault's own place.
    pub fn place(&self) -> usize
        ensures { result ≡ place_of self.now }
    {
        match self {
            Refusal::OutOfService(unfit) => unfit.place(),
            Refusal::NoRoute { route }
            | Refusal::RouteNotFree { route }
            | Refusal::RouteNotReserved { route }
            | Refusal::RouteNotFormed { route }
            | Refusal::RouteFree { route } => *route as usize,
            Refusal::InPossession { block }
            | Refusal::BlockReserved { block }
            | Refusal::PointLiesWrong { block }
            | Refusal::BlockNotHeld { block }
            | Refusal::BlockOccupied { block }
            | Refusal::LampAlreadyGreen { block }
            | Refusal::StillHolds { block }
            | Refusal::NoBlock { block }
            | Refusal::OtherYard { block }
            | Refusal::NotInPossession { block }
            | Refusal::PointStuck { block }
            | Refusal::LampStayedRed { block } => *block as usize,
            Refusal::LineFull | Refusal::UnknownPanel | Refusal::LineEmpty => 0,
            Refusal::Fault(fault) => fault.place,
        }
    }
}

impl Unfit {
    fn place(&self) -> usize
        ensures { result ≡ place_of (out_of_service self.now) }
    {
        match self {
            Unfit::BlockCount => 0,
            Unfit::BlockDiffers { block }
            | Unfit::BlockOccupied { block }
            | Unfit::LampGreen { block } => *block as usize,
        }
    }
}

impl From<Unfit> for Refusal {
    ghost from_gives = { λ u r. r ≡ out_of_service u };

    fn from(unfit: Unfit) -> Refusal {
        Refusal::OutOfService(unfit)
    }
}

impl From<Fault> for Refusal {
    ghost from_gives = { λ f r. r ≡ faulty f };

    fn from(fault: Fault) -> Refusal {
        Refusal::Fault(fault)
    }
}

impl From<Full> for Refusal {
    ghost from_gives = { λ f r. r ≡ line_full f };

    fn from(full: Full) -> Refusal {
        match full {
            Full::NoRoom => Refusal::LineFull,
        }
    }
}

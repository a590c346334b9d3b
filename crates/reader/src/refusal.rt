// Why a sheet is refused.
ghost use Rattle.std.specs.Prelude.{◌≡◌};
ghost use Rattle.reader.specs.Refusals.{number_of, line_of};

use network::rules::{BlockRule, RouteRule};

// The cases in the order of the tests. Lines are counted from 1.
#[derive(Clone, Copy, PartialEq, Eq)]
pub enum Refusal {
    TooLong,
    Form { line: usize },
    Limit { line: usize },
    Empty,
    Block { rule: BlockRule, line: usize },
    Route { rule: RouteRule, line: usize },
}

impl Refusal {
    // The number by which the drawing office knows this refusal.
    pub fn number(&self) -> u8
        ensures { result ≡ number_of self.now }
    {
        match self {
            Refusal::TooLong => 1,
            Refusal::Form { .. } => 2,
            Refusal::Limit { .. } => 3,
            Refusal::Empty => 4,
            Refusal::Block { rule, .. } => match rule {
                BlockRule::JointsExist => 5,
                BlockRule::OuterEnds => 7,
                BlockRule::JointsMutual => 6,
            },
            Refusal::Route { rule, .. } => match rule {
                RouteRule::Blocks => 8,
                RouteRule::Borders => 10,
                RouteRule::Ways => 9,
            },
        }
    }

    // The line that is refused, or 0 where it is the whole sheet.
    pub fn line(&self) -> usize
        ensures { result ≡ line_of self.now }
    {
        match self {
            Refusal::TooLong | Refusal::Empty => 0,
            Refusal::Form { line } | Refusal::Limit { line } => *line,
            Refusal::Block { line, .. } | Refusal::Route { line, .. } => *line,
        }
    }
}

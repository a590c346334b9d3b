// What is said of a refused sheet: the refusal's number and line, and what is wrong there.
ghost use Rattle.std.specs.Prelude.{◌≡◌, Some};
ghost use Rattle.report.specs.Texts.{block_message, route_message, message_of, refused_text};

use crate::line::{Line, line_behind};
use network::rules::{BlockRule, RouteRule};
use reader::Refusal;
use std::fmt;

// One sentence for each refusal. The refusals and rules are other crates' types, which only those could give a `Display`.
fn message(refusal: &Refusal) -> &'static str
    ensures { result.now ≡ message_of refusal.now }
{
    match refusal {
        Refusal::TooLong => "the sheet has more than 8192 bytes",
        Refusal::Form { .. } => {
            "not a well-formed block or route line, a block line behind a route line, or a last line without a line end"
        }
        Refusal::Limit { .. } => {
            "over a limit: at most 64 blocks, 32 routes, and 24 blocks in a route"
        }
        Refusal::Empty => "the sheet has no block line or no route line",
        Refusal::Block { rule, .. } => block_message(*rule),
        Refusal::Route { rule, .. } => route_message(*rule),
    }
}

fn block_message(rule: BlockRule) -> &'static str
    ensures { result.now ≡ block_message rule }
{
    match rule {
        BlockRule::JointsExist => "a joint names a block or an end that does not exist",
        BlockRule::JointsMutual => {
            "a joint is not mutual, leads to the block itself, or is a second joint between the same two blocks"
        }
        BlockRule::OuterEnds => {
            "an outer end where none may be: only a plain block has one, and only one"
        }
    }
}

fn route_message(rule: RouteRule) -> &'static str
    ensures { result.now ≡ route_message rule }
{
    match rule {
        RouteRule::Blocks => {
            "the route has fewer than two blocks, a block that does not exist, or a block twice"
        }
        RouteRule::Ways => {
            "two neighbouring blocks are not joined, no way leads through a block, or the route is not entered and left by outer ends"
        }
        RouteRule::Borders => "the first or the last block of the route has no outer end",
    }
}

// A refusal of a sheet.
#[derive(Clone, Copy)]
pub(crate) struct Refused<'a> {
    pub(crate) refusal: &'a Refusal,
    pub(crate) sheet: &'a [u8],
}

impl fmt::Display for Refused<'_> {
    ghost output = { λ x. Some (refused_text x.sheet.now x.refusal.now) };

    // The refusal's number and line, then what is wrong, with that line where it is one line.
    fn fmt<W: fmt::Write>(&self, f: &mut fmt::Formatter<W>) -> fmt::Result {
        let number = self.refusal.number();
        let line = self.refusal.line();
        let message = message(self.refusal);
        writeln!(f, "no {number} {line}")?;
        if line == 0 {
            return writeln!(f, "{message}");
        }
        let shown = Line(line_behind(self.sheet, line - 1));
        writeln!(f, "line {line}: {message}: \"{shown}\"")
    }
}

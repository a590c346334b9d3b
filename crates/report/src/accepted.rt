// What is said of an accepted sheet: how many blocks and routes it has, and the steps of each route.
ghost use Rattle.std.specs.Prelude.{◌≡◌, Some};
ghost use Rattle.network.specs.Joints.{joint_of};
ghost use Rattle.network.specs.Network.{blocks_of};
ghost use Rattle.network.specs.Sheets.{plan_of};
ghost use Rattle.report.specs.Texts.{leads_outside, end_text, needs_text, step_text, route_text, accepted_text};

use network::network::Network;
use network::route::Step;
use network::sheet::Sheet;
use network::track::{Joint, Position};
use std::fmt;

// An end of a block.
#[derive(Clone, Copy)]
struct End<'a> {
    network: &'a Network,
    block: u8,
    end: u8,
}

impl End<'_> {
    fn leads_outside(&self) -> bool
        ensures { result ≡ leads_outside (joint_of (blocks_of self.now.network.now) self.now.block self.now.end) }
    {
        let Some(block) = self.network.block(self.block) else {
            return false;
        };
        block.joint(self.end) == Some(Joint::Outer)
    }
}

impl fmt::Display for End<'_> {
    ghost output = { λ x. Some (end_text (blocks_of x.network.now) x.block x.end) };

    // Its number, or `-` for an outer end.
    fn fmt<W: fmt::Write>(&self, f: &mut fmt::Formatter<W>) -> fmt::Result {
        if self.leads_outside() {
            return write!(f, "-");
        }
        write!(f, "{}", self.end)
    }
}

// No `Display`: an `Option` is not this crate's.
fn needs_text(needs: Option<Position>) -> &'static str
    ensures { result.now ≡ needs_text needs }
{
    match needs {
        Some(Position::Left) => "L",
        Some(Position::Right) => "R",
        None => "",
    }
}

// A step of a route, as a word of its line.
#[derive(Clone, Copy)]
struct Word<'a> {
    network: &'a Network,
    step: &'a Step,
}

impl Word<'_> {
    fn end(&self, end: u8) -> End<'_>
        ensures network { result.network.now ≡ self.now.network.now }
        ensures block { result.block ≡ self.now.step.now.block }
        ensures end { result.end ≡ end }
    {
        End {
            network: self.network,
            block: self.step.block,
            end,
        }
    }
}

impl fmt::Display for Word<'_> {
    ghost output = { λ x. Some (step_text (blocks_of x.network.now) x.step.now) };

    fn fmt<W: fmt::Write>(&self, f: &mut fmt::Formatter<W>) -> fmt::Result {
        let block = self.step.block;
        let entered = self.end(self.step.entered);
        let left = self.end(self.step.left);
        let needs = needs_text(self.step.needs);
        write!(f, " {block}:{entered}>{left}{needs}")
    }
}

// A route of a number, as a line.
#[derive(Clone, Copy)]
struct Route<'a> {
    network: &'a Network,
    number: u8,
    steps: &'a [Step],
}

impl fmt::Display for Route<'_> {
    ghost output = { λ x. Some (route_text (blocks_of x.network.now) x.number x.steps.now) };

    fn fmt<W: fmt::Write>(&self, f: &mut fmt::Formatter<W>) -> fmt::Result {
        let network = self.network;
        write!(f, "route {}", self.number)?;
        for step in self.steps {
            write!(f, "{}", Word { network, step })?;
        }
        writeln!(f)
    }
}

#[derive(Clone, Copy)]
pub(crate) struct Accepted<'a>(pub(crate) &'a Sheet);

impl fmt::Display for Accepted<'_> {
    ghost output = { λ x. Some (accepted_text (plan_of x.0.now)) };

    // How many blocks and routes there are, then a line for each route.
    fn fmt<W: fmt::Write>(&self, f: &mut fmt::Formatter<W>) -> fmt::Result {
        let sheet = self.0;
        let network = &sheet.network();
        writeln!(f, "ok {} {}", network.len(), sheet.routes())?;
        // a sheet gives its routes by number
        for number in 0..sheet.routes() as u8 {
            if let Some(steps) = sheet.route(number) {
                write!(
                    f,
                    "{}",
                    Route {
                        network,
                        number,
                        steps,
                    }
                )?;
            }
        }
        Ok(())
    }
}

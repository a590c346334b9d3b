// What is asked before a call does anything.
ghost use Rattle.std.specs.Prelude.{◌≡◌};
ghost use Rattle.network.specs.Sheets.{plan_of};
ghost use Rattle.interlocking.specs.Calls.{service_of, steps_seen, steps_for, first_block, lamp_red};

use crate::Interlocking;
use book::refusal::Refusal;
use network::route::Step;
use network::sheet::Sheet;
use trackside::answers::Lamp;
use trackside::{Look, Work};

pub(crate) fn steps_for(sheet: &Sheet, route: u8) -> Result<&[Step], Refusal>
    ensures { steps_seen result ≡ steps_for (plan_of sheet.now) route }
{
    sheet.route(route).ok_or(Refusal::NoRoute { route })
}

// The block that a route is entered by.
pub(crate) fn first_block(steps: &[Step]) -> u8
    ensures { result ≡ first_block steps.now }
{
    steps.first().map_or(0, |step| step.block)
}

pub(crate) fn lamp_red<T: Look>(trackside: &T, block: u8) -> Result<(), Refusal>
    ensures { result ≡ lamp_red (T.Look.as_ground trackside.now) block }
{
    if trackside.lamp(block) == Lamp::Green {
        return Err(Refusal::LampAlreadyGreen { block });
    }
    Ok(())
}

impl<T: Work> Interlocking<T> {
    pub(crate) fn in_service(&self) -> Result<(), Refusal>
        ensures { result ≡ service_of self.now.unfit }
    {
        self.unfit
            .map_or(Ok(()), |unfit| Err(Refusal::OutOfService(unfit)))
    }
}

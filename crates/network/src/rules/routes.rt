// The rules that each route must meet, and the steps of one that meets them.
ghost use Rattle.std.specs.Prelude.{◌≡◌, length};
ghost use Rattle.network.specs.Judge.{judge_routes, once, blocks_once, border, leads, needed, onward, step_of, traced, judge_route};
ghost use Rattle.network.specs.Drawing.{lists_of, numbers_of};
ghost use Rattle.network.specs.Network.{blocks_of};
ghost use Rattle.network.specs.Plans.{routes_or};
ghost use Rattle.network.specs.Routes.{steps_if, steps_or};

use crate::lists::{Listed, Lists};
use crate::network::Network;
use crate::route::{Route, Routes, Step};
use crate::rules::blocks::towards;
use crate::rules::{Broken, RouteRule};
use crate::track::{Block, Kind, Position};
use crate::ways::way;
use table::Table;

// Are the blocks all in the table, and none twice? The table marks those seen.
fn once(seen: &mut [bool], numbers: &[u8]) -> bool
    ensures { result ≡ once seen.old numbers.now }
{
    // by a `for`: each number is marked as it is asked
    for number in numbers {
        let at = *number as usize;
        match seen.get(at) {
            Some(false) => seen[at] = true,
            _ => return false,
        }
    }
    true
}

// Are there two blocks at least, all of the network, none twice?
fn blocks_once(network: &Network, numbers: &[u8]) -> bool
    ensures { result ≡ blocks_once (length (blocks_of network.now)) numbers.now }
{
    let mut seen = [false; 64];
    numbers.len() >= 2 && once(&mut seen[..network.len()], numbers)
}

// The outer end of a border block.
fn border(network: &Network, number: u8) -> Option<u8>
    ensures { result ≡ border (blocks_of network.now) number }
{
    network.block(number)?.outer_end()
}

fn leads(kind: Kind, entered: u8, left: u8, position: Position) -> bool
    ensures { result ≡ leads kind entered left position }
{
    way(kind, entered, position).is_some_and(|end| end == left)
}

// The position in which a way leads from `entered` to `left`, or that any will do; none where no way leads.
fn needed(kind: Kind, entered: u8, left: u8) -> Option<Option<Position>>
    ensures { result ≡ needed kind entered left }
{
    let left_leads = leads(kind, entered, left, Position::Left);
    let right_leads = leads(kind, entered, left, Position::Right);
    match (left_leads, right_leads) {
        (true, true) => Some(None),
        (true, false) => Some(Some(Position::Left)),
        (false, true) => Some(Some(Position::Right)),
        (false, false) => None,
    }
}

// The end by which a block is left, and the end by which the next one is entered. The last block is left by its outer end.
fn onward(block: Block, next: Option<u8>) -> Option<(u8, u8)>
    ensures { result ≡ onward block next }
{
    match next {
        Some(number) => towards(block, number),
        None => Some((block.outer_end()?, 0)),
    }
}

const NO_STEP: Step = Step {
    block: 0,
    entered: 0,
    left: 0,
    needs: None,
};

// The step through a block, and the end by which the next one is entered.
fn step(network: &Network, number: u8, entered: u8, next: Option<u8>) -> Option<(Step, u8)>
    ensures { result ≡ step_of (blocks_of network.now) number entered next }
{
    let block = network.block(number)?;
    let (left, far) = onward(block, next)?;
    let needs = needed(block.kind(), entered, left)?;
    let step = Step {
        block: number,
        entered,
        left,
        needs,
    };
    Some((step, far))
}

// The steps through the blocks, the first of which is entered by `entered`, or none where one does not lead to the next.
fn trace(network: &Network, listed: &Listed, entered: u8) -> Option<Route>
    ensures { steps_if result ≡ traced (blocks_of network.now) entered (numbers_of listed.now) }
{
    let mut steps = Table::new(NO_STEP);
    let mut end = entered;
    // the rest is walked, since a step is known by the number behind it
    let mut rest = listed.as_slice();
    while let Some((number, behind)) = rest.split_first() {
        let (step, far) = step(network, *number, end, behind.first().copied())?;
        // a route has as many steps as it has numbers
        let _ = steps.push(step);
        end = far;
        rest = behind;
    }
    Some(steps)
}

// A route by its three rules in order, and its steps.
fn judge_route(network: &Network, listed: &Listed) -> Result<Route, RouteRule>
    ensures { steps_or result ≡ judge_route (blocks_of network.now) (numbers_of listed.now) }
{
    let numbers = listed.as_slice();
    if !blocks_once(network, numbers) {
        return Err(RouteRule::Blocks);
    }
    let outer = |number: &u8| border(network, *number);
    let first = numbers.first().and_then(outer).ok_or(RouteRule::Borders)?;
    numbers.last().and_then(outer).ok_or(RouteRule::Borders)?;
    trace(network, listed, first).ok_or(RouteRule::Ways)
}

// All routes in order, up to the first that breaks a rule.
pub(crate) fn judge_routes(network: &Network, lists: &Lists) -> Result<Routes, Broken>
    ensures { routes_or result ≡ judge_routes (blocks_of network.now) 0 (lists_of lists.now) }
{
    let mut routes = Table::new(Table::new(NO_STEP));
    for (number, listed) in lists.as_slice().iter().enumerate() {
        // by a match: with `map_err(..)?` the proof did not close
        match judge_route(network, listed) {
            // there is room for as many routes as were listed
            Ok(route) => {
                let _ = routes.push(route);
            }
            Err(rule) => {
                return Err(Broken::Route {
                    rule,
                    route: number as u8,
                });
            }
        }
    }
    Ok(routes)
}

ghost use Rattle.std.specs.Prelude.{IfOk};
ghost use Rattle.network.specs.Drawing.{lists_of};
ghost use Rattle.network.specs.Network.{blocks_of};
ghost use Rattle.network.specs.Plans.{routes_or, with_blocks, Judges};
ghost use Rattle.network.specs.Routes.{routes_of, AsJudged};

use crate::lists::Lists;
use crate::network::Network;
use crate::route::Routes;
use crate::rules::blocks::keep;
use crate::rules::routes::judge_routes;
use crate::rules::{BlockRule, Broken};

// The routes of a drawing that meets every rule, or the first rule that it breaks, and where.
pub(crate) fn judged(network: &Network, lists: &Lists) -> Result<Routes, Broken>
    ensures judges { Judges (record { blocks = blocks_of network.now; routes = lists_of lists.now }) (with_blocks (blocks_of network.now) (routes_or result)) }
    ensures lawful { IfOk result (λ x. AsJudged (blocks_of network.now) (routes_of x)) }
{
    keep(network, BlockRule::JointsExist)?;
    keep(network, BlockRule::OuterEnds)?;
    keep(network, BlockRule::JointsMutual)?;
    judge_routes(network, lists)
}

// An accepted sheet: a network and its routes, which together meet every rule.
ghost use Rattle.network.specs.Network.{blocks_of};
ghost use Rattle.network.specs.Routes.{routes_of, AsJudged};

use crate::network::Network;
use crate::route::Routes;

mod calls;
mod rules;

#[derive(Clone, Copy)]
pub struct Sheet {
    network: Network,
    routes: Routes,
    // judged again by the blocks of its own steps, the sheet is accepted as it stands
    ghost lawful: { AsJudged (blocks_of network) (routes_of routes) },
}

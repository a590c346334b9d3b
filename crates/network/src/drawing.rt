// What a sheet declares, before any rule is asked: blocks and routes within the limits.
use crate::lists::Lists;
use crate::network::Network;

mod calls;

#[derive(Clone, Copy)]
pub struct Drawing {
    pub(crate) network: Network,
    pub(crate) lists: Lists,
}

// What there would be too many of: blocks, routes, or blocks in a route.
#[derive(Clone, Copy, PartialEq, Eq)]
pub enum Limit {
    Blocks,
    Routes,
    Length,
}

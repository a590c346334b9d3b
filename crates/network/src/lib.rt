// A track network, its routes, and the rules that both must meet before a yard may be run on them.
#![tactic(auto)]

pub mod drawing;
pub mod lists;
pub mod network;
pub mod route;
pub mod rules;
pub mod sheet;
pub mod track;
pub mod ways;

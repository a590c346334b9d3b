// The frame link: a yard that hears of movements by frames in lent bytes, and works its plant directly.
#![tactic(auto)]

pub mod fault;
mod frame;
pub mod link;
mod moving;
mod train;

// The frozen picture: a copy of what can be seen of a yard at one moment.
use crate::answers::Lamp;
use network::track::{Block, Position};
use table::Table;

mod calls;
mod copying;

// What is seen of one block.
#[derive(Clone, Copy)]
pub struct Glimpse {
    pub(crate) block: Block,
    pub(crate) position: Position,
    pub(crate) lamp: Lamp,
    pub(crate) occupied: bool,
}

#[derive(Clone, Copy)]
pub struct Picture {
    glimpses: Table<Glimpse, 64>,
}

// The blocks of a yard, numbered from 0, at most 64.
use crate::track::Block;
use table::Table;

mod calls;
mod growth;

#[derive(Clone, Copy)]
pub struct Network {
    pub(crate) blocks: Table<Block, 64>,
}

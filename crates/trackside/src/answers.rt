// What a trackside answers.

// What a lamp shows. A lamp stands at the outer end of each border block.
#[derive(Clone, Copy, PartialEq, Eq)]
pub enum Lamp {
    Red,
    Green,
}

// Where a train stands: a block, and the end by which it was entered.
#[derive(Clone, Copy, PartialEq, Eq)]
pub struct Stand {
    pub block: u8,
    pub entered: u8,
}

// What was told has not come about.
#[derive(Clone, Copy, PartialEq, Eq)]
pub struct Stuck;

// Why a movement could not be told: the number and place that the layer below gives. Numbers and no enum, since each make has
// faults of its own and the layers above hand them on.
#[derive(Clone, Copy, PartialEq, Eq)]
pub struct Fault {
    pub number: u8,
    pub place: usize,
}

// One move: nothing, or a movement with its train and its block: the block reached by `Enter` and `Forward`, the block cleared
// by `Clear`. Trains are numbered from 0 in the order of entering. `Quiet` is a case and no `None`: a move that
// finds nothing to do is a move.
#[derive(Clone, Copy, PartialEq, Eq)]
pub enum Moved {
    Quiet,
    Enter { train: usize, block: u8 },
    Forward { train: usize, block: u8 },
    Clear { train: usize, block: u8 },
}

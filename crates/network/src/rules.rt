// The rules that a drawing must meet, in the order in which they are asked.
pub mod blocks;
mod judgement;
pub mod routes;

pub(crate) use judgement::judged;

// A rule that each block must meet.
#[derive(Clone, Copy, PartialEq, Eq)]
pub enum BlockRule {
    // Every joint names an existing block and end.
    JointsExist,
    // Only a plain block has an outer end, and at most one.
    OuterEnds,
    // Joints are mutual, never of a block with itself, and two blocks share at most one.
    JointsMutual,
}

// A rule that each route must meet.
#[derive(Clone, Copy, PartialEq, Eq)]
pub enum RouteRule {
    // At least two blocks, all existing, none twice.
    Blocks,
    // The first and the last block have an outer end.
    Borders,
    // Neighbours are joined, and in each block a way leads from the end entered to the end left.
    Ways,
}

// The first rule that a drawing breaks, and where.
#[derive(Clone, Copy, PartialEq, Eq)]
pub enum Broken {
    Block { rule: BlockRule, block: u8 },
    Route { rule: RouteRule, route: u8 },
}

// Where a route stands with the dispatcher.
#[derive(Clone, Copy, PartialEq, Eq)]
pub enum RouteState {
    Free,
    // its blocks are reserved, and its points may be laid
    Reserved,
    // its points were seen to lie right, and its lamp may be lit
    Formed,
}

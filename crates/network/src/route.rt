// A route, as the steps of a train that runs it.
use crate::track::Position;
use table::Table;

// One block of a route: the end by which it is entered, the end by which it is left, and the position that this way needs.
#[derive(Clone, Copy, PartialEq, Eq)]
pub struct Step {
    pub block: u8,
    pub entered: u8,
    pub left: u8,
    pub needs: Option<Position>,
}

// The steps of a route.
pub type Route = Table<Step, 24>;

// The routes of a sheet.
pub type Routes = Table<Route, 32>;

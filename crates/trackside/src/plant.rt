// The plant of a yard: its blocks, how its points lie, and what its lamps show. Makes keep a plant and add their trains.
ghost use Rattle.std.specs.Prelude.{◌≡◌, length};

use crate::answers::Lamp;
use network::network::Network;
use network::track::Position;

mod calls;
mod tells;

// How the point of a block was laid and its lamp was lit; it counts where a point or a lamp is.
#[derive(Clone, Copy)]
pub(crate) struct Setting {
    pub(crate) position: Position,
    pub(crate) lamp: Lamp,
}

#[derive(Clone, Copy)]
pub struct Plant {
    // as it is drawn: what is set stands apart, since the drawing never changes
    network: Network,
    // all 64 numbers have a setting, so no length stands beside
    settings: [Setting; 64],
    ghost sized: { length settings ≡ 64 },
}

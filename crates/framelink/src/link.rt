// The link: a plant, the bytes that tell of movements, the offset of the next frame, and the trains.
ghost use Rattle.std.specs.Prelude.{◌≡◌, ◌≤◌, true, length};
ghost use Rattle.trackside.specs.Plants.{stored};
ghost use Rattle.framelink.specs.Standing.{all_there};
ghost use Rattle.framelink.specs.Trains.{trains_of};

use crate::train::Train;
use table::Table;
use trackside::plant::Plant;

mod calls;
mod looks;
mod make;
mod moves;

// The most blocks that a link carries.
const MOST: usize = 32;

#[derive(Drop)]
pub struct FrameLink<'a> {
    plant: Plant,
    bytes: &'a [u8],
    at: usize,
    trains: Table<Train, 16>,
    ghost carried: { length (stored plant).blocks ≤ 32 },
    // the trains stand on blocks that are there
    ghost there: { all_there (length (stored plant).blocks) (trains_of trains) ≡ true },
}

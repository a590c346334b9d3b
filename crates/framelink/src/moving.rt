// What a train does when a block is said to be occupied or cleared. Plant and block are given as they come, since a test looks at
// no more of the link.
ghost use Rattle.std.specs.Prelude.{◌≡◌, ◌<◌, List, map, length, Option, IfSome};
ghost use Rattle.trackside.specs.declared.answers.Stand.{Stand};
ghost use Rattle.trackside.specs.Plants.{stored};
ghost use Rattle.framelink.specs.Movements.{TestsBy, first_with, goes_to, train_goes, train_clears};
ghost use Rattle.framelink.specs.Trains.{stands_of};

use crate::train::Train;
use network::track::Joint;
use trackside::answers::Stand;
use trackside::plant::Plant;

// How a train clears a block: it loses its rear stand, or it had one stand only and leaves.
#[derive(Clone, Copy)]
pub(crate) enum Clearing {
    Shortens,
    Leaves,
}

// The first train of which a test gives something, by its number, and what the test gives.
pub(crate) fn first_with<X, F: Fn(&Train) -> Option<X>>(
    trains: &[Train],
    test: F,
) -> Option<(usize, X)>
    requires { F.IsAlwaysCallable test }
    ensures first { (p : List Stand → Option X) → TestsBy F.Fn test p → result ≡ first_with p 0 (map stands_of trains.now) }
    ensures there { IfSome result (λ found. found.0 < length trains.now) }
{
    // not by `find_map`: with it the check leaves the goal open
    for (number, train) in trains.iter().enumerate() {
        if let Some(given) = test(train) {
            return Some((number, given));
        }
    }
    None
}

// The end by which a train that stands at `stand` enters a block, if it can go there.
fn goes_to(plant: &Plant, block: u8, stand: Stand) -> Option<u8>
    ensures { result ≡ goes_to (stored plant.now) block stand }
{
    let end = plant.way(stand.block, stand.entered)?;
    match plant.joint(stand.block, end) {
        Joint::Joined {
            block: next,
            end: entered,
        } if next == block => Some(entered),
        _ => None,
    }
}

// The end by which a train enters a block, if it can go there.
pub(crate) fn goes(plant: &Plant, block: u8, train: &Train) -> Option<u8>
    ensures { result ≡ train_goes (stored plant.now) block (stands_of train.now) }
{
    goes_to(plant, block, train.front())
}

// How a train may clear a block.
pub(crate) fn clears(plant: &Plant, block: u8, train: &Train) -> Option<Clearing>
    ensures { result ≡ train_clears (stored plant.now) block (stands_of train.now) }
{
    let rear = train.rear();
    if rear.block != block {
        return None;
    }
    if train.is_long() {
        return Some(Clearing::Shortens);
    }
    let end = plant.way(rear.block, rear.entered)?;
    (plant.joint(rear.block, end) == Joint::Outer).then_some(Clearing::Leaves)
}

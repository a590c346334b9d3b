// A picture is made from any looking end.
ghost use Rattle.std.specs.Prelude.{◌≡◌, ◌≤◌};
ghost use Rattle.table.specs.Tables.{items_of};
ghost use Rattle.trackside.specs.Pictures.{block_seen, glimpse_of, seen_of, picture_ground, Shows};

use crate::Look;
use crate::answers::Lamp;
use crate::picture::{Glimpse, Picture};
use network::track::{Block, Joint, Kind, Position};
use table::Table;

fn block_seen<L: Look>(looked: &L, block: u8) -> Block
    ensures { result ≡ block_seen (L.Look.as_ground looked.now) block }
{
    let a = looked.joint(block, 0);
    let b = looked.joint(block, 1);
    match looked.kind(block) {
        None => Block::Plain(Joint::Outer, Joint::Outer),
        Some(Kind::Plain) => Block::Plain(a, b),
        Some(Kind::Point) => Block::Point(a, b, looked.joint(block, 2)),
        Some(Kind::Crossing) => Block::Crossing(
            a,
            b,
            looked.joint(block, 2),
            looked.joint(block, 3),
        ),
    }
}

fn glimpse<L: Look>(looked: &L, block: u8) -> Glimpse
    ensures { result ≡ glimpse_of (L.Look.as_ground looked.now) block }
{
    Glimpse {
        block: block_seen(looked, block),
        position: looked.position(block),
        lamp: looked.lamp(block),
        occupied: looked.occupied(block),
    }
}

// What is seen of the first `count` blocks.
fn copied<L: Look>(looked: &L, count: usize) -> Table<Glimpse, 64>
    requires { count ≤ 64 }
    ensures { items_of result ≡ seen_of (L.Look.as_ground looked.now) count }
{
    let nothing = Glimpse {
        block: Block::Plain(Joint::Outer, Joint::Outer),
        position: Position::Left,
        lamp: Lamp::Red,
        occupied: false,
    };
    let mut glimpses = Table::new(nothing);
    // a looking end answers by number
    for block in 0..count {
        // there is room for all 64 that a trackside may have
        let _ = glimpses.push(glimpse(looked, block as u8));
    }
    glimpses
}

// A copy of what is seen now.
fn shown<L: Look>(looked: &L) -> Picture
    ensures { Shows (picture_ground result) (L.Look.as_ground looked.now) }
{
    Picture {
        glimpses: copied(looked, looked.block_count()),
    }
}

impl Picture {
    // A picture of what any looking end shows now.
    pub fn of<L: Look>(looked: &L) -> Picture
        ensures { Shows (picture_ground result) (L.Look.as_ground looked.now) }
    {
        shown(looked)
    }
}

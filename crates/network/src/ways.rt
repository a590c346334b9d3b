// The ways through a block: from which end to which, by kind and position.
ghost use Rattle.std.specs.Prelude.{◌≡◌};
ghost use Rattle.network.specs.Ways.{way_of, WaysLeadBack};

use crate::track::{Kind, Position};

// Where each end leads, while a point lies left and while it lies right.
#[derive(Clone, Copy)]
struct Row {
    left: [Option<u8>; 4],
    right: [Option<u8>; 4],
}

// Rows for plain, point and crossing, all ends in both positions, written out so that the table can be compared line by line. Every
// route, movement and position is read from it.
const WAYS: [Row; 3] = [
    Row {
        left: [Some(1), Some(0), None, None],
        right: [Some(1), Some(0), None, None],
    },
    Row {
        left: [Some(1), Some(0), None, None],
        right: [Some(2), None, Some(0), None],
    },
    Row {
        left: [Some(1), Some(0), Some(3), Some(2)],
        right: [Some(1), Some(0), Some(3), Some(2)],
    },
];

// The end to which a way leads from `end`, or none. Every way of the table leads back.
pub fn way(kind: Kind, end: u8, position: Position) -> Option<u8>
    ensures value { result ≡ way_of kind end position }
    ensures back { WaysLeadBack }
{
    let row = match kind {
        Kind::Plain => WAYS[0],
        Kind::Point => WAYS[1],
        Kind::Crossing => WAYS[2],
    };
    let ends = match position {
        Position::Left => row.left,
        Position::Right => row.right,
    };
    ends.get(end as usize).copied().unwrap_or(None)
}

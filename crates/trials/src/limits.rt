// Sheets at the limits and just over them, and with a fault behind a limit.
//
// No sheet of 8,192 bytes is accepted. A block line has at most 33 bytes, with four ends of five bytes, and a route
// line at most 78, with 24 numbers of two digits. So 64 blocks and 32 routes take at most 64 * 33 + 32 * 78 = 4,608
// bytes, and every longer text has a wrong form or is over a limit. At 8,192 bytes that is still what is answered, and
// at 8,193 it is the length.
use crate::built::{Built, Part};

pub(crate) const LIMITS: [Built; 25] = [
    Built {
        name: "64 blocks",
        parts: &[
            Part::Chain(0, 23),
            Part::Chain(24, 47),
            Part::Chain(48, 63),
            Part::Routes(48, 63, 1),
        ],
    },
    Built {
        name: "65 blocks",
        parts: &[
            Part::Chain(0, 23),
            Part::Chain(24, 47),
            Part::Chain(48, 64),
            Part::Routes(0, 23, 1),
        ],
    },
    Built {
        name: "24 blocks in a route",
        parts: &[Part::Chain(0, 23), Part::Routes(0, 23, 1)],
    },
    Built {
        name: "25 blocks in a route",
        parts: &[Part::Chain(0, 24), Part::Routes(0, 24, 1)],
    },
    Built {
        name: "32 routes",
        parts: &[Part::Chain(0, 1), Part::Routes(0, 1, 32)],
    },
    Built {
        name: "33 routes",
        parts: &[Part::Chain(0, 1), Part::Routes(0, 1, 33)],
    },
    Built {
        name: "64 blocks and 32 routes of 24 blocks",
        parts: &[
            Part::Chain(0, 23),
            Part::Chain(24, 47),
            Part::Chain(48, 63),
            Part::Routes(0, 23, 8),
            Part::Routes(23, 0, 8),
            Part::Routes(24, 47, 8),
            Part::Routes(47, 24, 8),
        ],
    },
    Built {
        name: "64 blocks and 33 routes of 24 blocks",
        parts: &[
            Part::Chain(0, 23),
            Part::Chain(24, 47),
            Part::Chain(48, 63),
            Part::Routes(0, 23, 8),
            Part::Routes(23, 0, 8),
            Part::Routes(24, 47, 8),
            Part::Routes(47, 24, 9),
        ],
    },
    Built {
        name: "64 blocks, the 65th line of a wrong form",
        parts: &[
            Part::Chain(0, 23),
            Part::Chain(24, 47),
            Part::Chain(48, 63),
            Part::Text(b"plain -\n", 1),
            Part::Routes(0, 23, 1),
        ],
    },
    Built {
        name: "65 blocks, then a wrong form",
        parts: &[
            Part::Chain(0, 23),
            Part::Chain(24, 47),
            Part::Chain(48, 64),
            Part::Text(b"plain -\n", 1),
        ],
    },
    Built {
        name: "65 blocks and no route",
        parts: &[Part::Chain(0, 23), Part::Chain(24, 47), Part::Chain(48, 64)],
    },
    Built {
        name: "64 blocks, a route, a 65th block",
        parts: &[
            Part::Chain(0, 23),
            Part::Chain(24, 47),
            Part::Chain(48, 63),
            Part::Routes(0, 23, 1),
            Part::Text(b"plain - -\n", 1),
        ],
    },
    Built {
        name: "32 routes, the 33rd of a wrong form",
        parts: &[
            Part::Chain(0, 1),
            Part::Routes(0, 1, 32),
            Part::Text(b"route x\n", 1),
        ],
    },
    Built {
        name: "33 routes, then a wrong form",
        parts: &[
            Part::Chain(0, 1),
            Part::Routes(0, 1, 33),
            Part::Text(b"route x\n", 1),
        ],
    },
    Built {
        name: "33 routes, the 33rd of 25 blocks",
        parts: &[
            Part::Chain(0, 1),
            Part::Routes(0, 1, 32),
            Part::Routes(0, 24, 1),
        ],
    },
    Built {
        name: "32 routes, the last of them broken",
        parts: &[
            Part::Chain(0, 1),
            Part::Routes(0, 1, 31),
            Part::Routes(0, 0, 1),
        ],
    },
    Built {
        name: "8192 bytes, too many routes",
        parts: &[
            Part::Chain(0, 1),
            Part::Routes(0, 1, 816),
            Part::Routes(0, 0, 1),
        ],
    },
    Built {
        name: "8193 bytes, too many routes",
        parts: &[
            Part::Chain(0, 1),
            Part::Routes(0, 1, 816),
            Part::Routes(10, 10, 1),
        ],
    },
    Built {
        name: "8192 bytes, most of them one route",
        parts: &[
            Part::Chain(0, 1),
            Part::Text(b"route", 1),
            Part::Text(b" 0", 4081),
            Part::Text(b"\n", 1),
        ],
    },
    Built {
        name: "8193 bytes, most of them one route",
        parts: &[
            Part::Chain(0, 1),
            Part::Text(b"route", 1),
            Part::Text(b" 0", 4080),
            Part::Text(b" 10\n", 1),
        ],
    },
    Built {
        name: "8192 bytes x",
        parts: &[Part::Text(b"x", 8192)],
    },
    Built {
        name: "8193 bytes x",
        parts: &[Part::Text(b"x", 8193)],
    },
    Built {
        name: "8192 line ends",
        parts: &[Part::Text(b"\n", 8192)],
    },
    Built {
        name: "8193 line ends",
        parts: &[Part::Text(b"\n", 8193)],
    },
    Built {
        name: "the bytes 0 to 255",
        parts: &[Part::EveryByte],
    },
];

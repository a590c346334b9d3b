// The two days.
use crate::acts::Act;
use network::track::Position;
use trackside::answers::Lamp;
use yard::wish::Wish;

const GREEN_0: Act = Act::Light {
    block: 0,
    lamp: Lamp::Green,
};

const LEFT_1: Act = Act::Throw {
    block: 1,
    position: Position::Left,
};

const RIGHT_1: Act = Act::Throw {
    block: 1,
    position: Position::Right,
};

// What is wished, in order.
pub(crate) const WISHES: [Wish; 24] = [
    Wish::Enter { block: 1 },
    Wish::Enter { block: 0 },
    Wish::Enter { block: 0 },
    Wish::Enter { block: 0 },
    Wish::Forward { train: 0 },
    Wish::Forward { train: 1 },
    Wish::Clear { train: 0 },
    Wish::Forward { train: 0 },
    Wish::Clear { train: 0 },
    Wish::Enter { block: 5 },
    Wish::Enter { block: 6 },
    Wish::Forward { train: 1 },
    Wish::Forward { train: 1 },
    Wish::Forward { train: 1 },
    Wish::Clear { train: 0 },
    Wish::Forward { train: 0 },
    Wish::Clear { train: 0 },
    Wish::Clear { train: 0 },
    Wish::Clear { train: 0 },
    Wish::Clear { train: 0 },
    Wish::Clear { train: 0 },
    Wish::Clear { train: 0 },
    Wish::Clear { train: 7 },
    Wish::Forward { train: 7 },
];

// Orders between the moves that take these wishes.
pub(crate) const BY_WISHES: [Act; 36] = [
    Act::Move,
    Act::Move,
    GREEN_0,
    Act::Move,
    Act::Move,
    Act::Throw {
        block: 0,
        position: Position::Right,
    },
    RIGHT_1,
    Act::Move,
    Act::Move,
    Act::Move,
    Act::Move,
    LEFT_1,
    Act::Move,
    Act::Light {
        block: 5,
        lamp: Lamp::Green,
    },
    Act::Light {
        block: 6,
        lamp: Lamp::Green,
    },
    Act::Light {
        block: 4,
        lamp: Lamp::Green,
    },
    Act::Light {
        block: 3,
        lamp: Lamp::Green,
    },
    Act::Light {
        block: 6,
        lamp: Lamp::Red,
    },
    Act::Move,
    Act::Move,
    Act::Move,
    Act::Move,
    Act::Move,
    Act::Move,
    Act::Move,
    Act::Move,
    Act::Move,
    Act::Move,
    Act::Move,
    Act::Move,
    Act::Move,
    Act::Move,
    Act::Move,
    Act::Move,
    Act::Move,
    Act::Throw {
        block: 200,
        position: Position::Left,
    },
];

// What the link hears: a train from block 0 by the branch to block 4, with damaged frames between.
pub(crate) const FRAMES: &[u8] =
    b"\x00\x04\x01\x01\x00\x00\x00\x04\x01\x01\x00\x00\x00\x04\x01\x01\x00\x01\x00\x03\x01\x01\x00\x00\x04\x02\x01\x00\x01\x00\x04\x01\x03\x00\x01\x00\x04\x01\x01\x00\x07\x00\x04\x01\x01\x01\x00\x00\x04\x01\x02\x00\x05\x00\x04\x01\x02\x00\x00\x00\x04\x01\x01\x00\x03\x00\x04\x01\x01\x00\x04\x00\x04\x01\x02\x00\x01\x00\x04\x01\x02\x00\x03\x00\x04\x01\x02\x00\x04\x00\x00\x00\x04\x01";

pub(crate) const BY_FRAMES: [Act; 21] = [
    Act::Move,
    GREEN_0,
    Act::Move,
    RIGHT_1,
    Act::Move,
    Act::Move,
    Act::Move,
    Act::Move,
    Act::Move,
    Act::Move,
    Act::Move,
    Act::Move,
    Act::Move,
    Act::Move,
    Act::Move,
    Act::Move,
    Act::Move,
    Act::Move,
    Act::Move,
    Act::Move,
    LEFT_1,
];

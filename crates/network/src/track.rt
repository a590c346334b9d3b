// The pieces a track network is made of. Ends of a block are numbered from 0.
ghost use Rattle.std.specs.Prelude.{◌≡◌};
ghost use Rattle.std.specs.List.{slice_get};
ghost use Rattle.network.specs.Track.{kind_of, ends_of};
ghost use Rattle.network.specs.Joints.{outer_end};

#[derive(Clone, Copy, PartialEq, Eq)]
pub enum Kind {
    Plain,
    Point,
    Crossing,
}

// How a point lies.
#[derive(Clone, Copy, PartialEq, Eq)]
pub enum Position {
    Left,
    Right,
}

// What an end of a block is: open to the outside, or joined to an end of another block.
#[derive(Clone, Copy, PartialEq, Eq)]
pub enum Joint {
    Outer,
    Joined { block: u8, end: u8 },
}

// A block with the joint at each of its ends, in order. A point has its toe, its left and its right branch;
// a crossing has the track 0-1 and the track 2-3.
#[derive(Clone, Copy, PartialEq, Eq)]
pub enum Block {
    Plain(Joint, Joint),
    Point(Joint, Joint, Joint),
    Crossing(Joint, Joint, Joint, Joint),
}

impl Block {
    pub fn kind(&self) -> Kind
        ensures { result ≡ kind_of self.now }
    {
        match self {
            Block::Plain(_, _) => Kind::Plain,
            Block::Point(_, _, _) => Kind::Point,
            Block::Crossing(_, _, _, _) => Kind::Crossing,
        }
    }

    // The joint at an end, or none where the block has no such end.
    pub fn joint(&self, end: u8) -> Option<Joint>
        ensures { result ≡ slice_get (ends_of self.now) end }
    {
        let at = end as usize;
        match *self {
            Block::Plain(a, b) => [a, b].get(at).copied(),
            Block::Point(a, b, c) => [a, b, c].get(at).copied(),
            Block::Crossing(a, b, c, d) => [a, b, c, d].get(at).copied(),
        }
    }

    // The outer end of a plain block that has one.
    pub fn outer_end(&self) -> Option<u8>
        ensures { result ≡ outer_end self.now }
    {
        match *self {
            Block::Plain(Joint::Outer, _) => Some(0),
            Block::Plain(_, Joint::Outer) => Some(1),
            _ => None,
        }
    }
}

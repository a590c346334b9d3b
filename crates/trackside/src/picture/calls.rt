// What can be seen of a picture. Its looks resemble those of a plant and read another thing: a plant has apart what is drawn and what
// is set, a picture has copied both, and occupied beside them.
ghost use Rattle.std.specs.Prelude.{◌≡◌};
ghost use Rattle.std.specs.List.{slice_get};
ghost use Rattle.trackside.specs.PictureLaws.{picture_lawful};
ghost use Rattle.trackside.specs.Pictures.{glimpses_of, picture_ground};

use crate::Look;
use crate::answers::Lamp;
use crate::picture::{Glimpse, Picture};
use network::track::{Joint, Kind, Position};

impl Picture {
    fn at(&self, block: u8) -> Option<Glimpse>
        ensures { result ≡ slice_get (glimpses_of self.now) block }
    {
        self.glimpses.as_slice().get(block as usize).copied()
    }
}

impl Look for Picture {
    const MOST_BLOCKS: usize = 64;

    ghost most = { 64 };

    ghost as_ground = { picture_ground };

    // a picture never changes
    ghost throws = { λ s b p a t. ⊥ };

    ghost lights = { λ s b l a t. ⊥ };

    ghost moves = { λ s m t. ⊥ };

    ghost lawful = { picture_lawful };

    fn carries() -> usize {
        Self::MOST_BLOCKS
    }

    fn block_count(&self) -> usize {
        self.glimpses.len()
    }

    fn kind(&self, block: u8) -> Option<Kind> {
        Some(self.at(block)?.block.kind())
    }

    fn joint(&self, block: u8, end: u8) -> Joint {
        let seen = self.at(block);
        seen.and_then(|seen| seen.block.joint(end))
            .unwrap_or(Joint::Outer)
    }

    fn position(&self, block: u8) -> Position {
        match self.at(block) {
            Some(seen) if seen.block.kind() == Kind::Point => seen.position,
            _ => Position::Left,
        }
    }

    fn lamp(&self, block: u8) -> Lamp {
        match self.at(block) {
            Some(seen) if seen.block.outer_end().is_some() => seen.lamp,
            _ => Lamp::Red,
        }
    }

    fn occupied(&self, block: u8) -> bool {
        self.at(block).is_some_and(|seen| seen.occupied)
    }
}

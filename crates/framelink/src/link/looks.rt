// What can be seen of a link besides its yard.
ghost use Rattle.std.specs.Prelude.{◌≡◌};
ghost use Rattle.framelink.specs.Views.{view_of};

use crate::link::FrameLink;

impl<'a> FrameLink<'a> {
    // The offset of the next frame.
    pub fn at(&self) -> usize
        ensures { result ≡ (view_of self.now).at }
    {
        self.at
    }
}

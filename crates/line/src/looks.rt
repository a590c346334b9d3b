// What can be seen of a line that stays as it is.
ghost use Rattle.std.specs.Prelude.{◌≡◌, length};
ghost use Rattle.line.specs.Lines.{waiting, room_of};

use super::Line;

impl<'a, T: Copy> Line<'a, T> {
    // How many wait.
    pub fn len(&self) -> usize
        ensures { result ≡ length (waiting self.now) }
    {
        self.count
    }

    // How many can wait.
    pub fn room(&self) -> usize
        ensures { result ≡ room_of self.now }
    {
        self.slots.len()
    }
}

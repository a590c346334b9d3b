// A line made, joined and served.
// A contract says what the call answers and who waits then (`waits`), how many can wait (`room`), what the slots hold (`slots`),
// where those who wait begin (`first`), and that the line still lies in the memory that was lent (`memory`):
// by the last the lender knows, once the line is gone, what its slots hold.
// `put` and `take` state the five one by one: a caller cites each by its name, and one relation of all five would be no shorter.
ghost use Rattle.std.specs.Prelude.{◌≡◌, [], length};
ghost use Rattle.line.specs.Lines.{waiting, room_of, joined_on, served, slots_after_put, first_after_take};
ghost use Rattle.line.specs.Orders.{FirstComeFirstServed};

use super::Line;
use super::refusal::Full;
use super::ring::{back, front};

impl<'a, T: Copy> Line<'a, T> {
    // An empty line in the slots lent, which it leaves as they are until something is put.
    pub fn new(slots: &'a mut [T]) -> Line<'a, T>
        ensures waits { waiting result ≡ [] }
        ensures room { room_of result ≡ length slots.old }
        ensures slots { result.slots.now ≡ slots.old }
        ensures first { result.first ≡ 0 }
        ensures memory { result.slots.ghost_name ≡ slots.entry.ghost_name }
        ensures order { FirstComeFirstServed result }
    {
        Line {
            first: 0,
            count: 0,
            slots,
        }
    }

    // Joins the line at the back, where there is room.
    pub fn put(&mut self, item: T) -> Result<(), Full>
        ensures waits { (result, waiting self.new) ≡ joined_on (room_of self.old) (waiting self.old) item }
        ensures room { room_of self.new ≡ room_of self.old }
        ensures slots { self.new.slots.now ≡ slots_after_put self.old item }
        ensures first { self.new.first ≡ self.old.first }
        ensures memory { self.new.slots.ghost_name ≡ self.old.slots.ghost_name }
    {
        let size = self.slots.len();
        if self.count >= size {
            return Err(Full::NoRoom);
        }
        let at = back(size, self.first, self.count);
        self.slots[at] = item;
        self.count += 1;
        Ok(())
    }

    // Serves the oldest, if any waits. Its slot keeps what it holds until another item is put there.
    pub fn take(&mut self) -> Option<T>
        ensures waits { (result, waiting self.new) ≡ served (waiting self.old) }
        ensures room { room_of self.new ≡ room_of self.old }
        ensures slots { self.new.slots.now ≡ self.old.slots.now }
        ensures first { self.new.first ≡ first_after_take self.old }
        ensures memory { self.new.slots.ghost_name ≡ self.old.slots.ghost_name }
    {
        if self.count == 0 {
            return None;
        }
        let at = front(self.slots.len(), self.first);
        let item = self.slots[at];
        self.first = at + 1;
        self.count -= 1;
        Some(item)
    }
}

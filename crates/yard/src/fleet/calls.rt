// Trains found, added, changed and taken out.
// A contract says what all the records hold then, and that they lie in the memory that was lent: by the second, said of each call, a
// lender knows what his records hold once the yard is gone.
ghost use Rattle.std.specs.Prelude.{◌≡◌, ◌<◌, map, take};
ghost use Rattle.std.specs.Option.{option_map};
ghost use Rattle.trackside.specs.Ground.{any_stands_in};
ghost use Rattle.yard.specs.Fleets.{Lent, stock, new_stock, found, trains_of, with_train, added, taken_out};
ghost use Rattle.yard.specs.Trains.{kept};

use crate::fleet::Fleet;
use crate::train::Train;
use trackside::answers::Stand;

impl<'a> Fleet<'a> {
    // No trains. The records stay as they are until a train uses them.
    pub(crate) fn new(records: &'a mut [Train]) -> Fleet<'a>
        ensures stock { stock result ≡ new_stock (map kept records.old) }
        ensures memory { result.records.ghost_name ≡ records.entry.ghost_name }
    {
        Fleet { records, count: 0 }
    }

    // The trains, in the order of entering.
    fn trains(&self) -> &[Train]
        ensures { result.now ≡ take self.now.count self.now.records.now }
    {
        &self.records[..self.count]
    }

    // The train of a number, or none.
    pub(crate) fn train(&self, train: usize) -> Option<Train>
        ensures { option_map kept result ≡ found (stock self.now) train }
    {
        self.trains().get(train).copied()
    }

    // Whether some train stands in the block.
    pub(crate) fn is_in(&self, block: u8) -> bool
        ensures { result ≡ any_stands_in (trains_of (stock self.now)) block }
    {
        self.trains().iter().any(|train| train.is_in(block))
    }

    // A new train with one stand, the last in number, where a record is free: its number.
    pub(crate) fn add(&mut self, stand: Stand) -> Option<usize>
        ensures stock { (result, stock self.new) ≡ added (stock self.old) stand }
        ensures memory { Lent self.old self.new }
    {
        // by a test: with `get_mut` the proof did not close
        let train = self.count;
        if train >= self.records.len() {
            return None;
        }
        self.records[train] = Train::at(stand);
        self.count += 1;
        Some(train)
    }

    // A train in the place of one, as it came to stand.
    pub(crate) fn put(&mut self, train: usize, changed: Train)
        requires { train < self.old.count }
        ensures stock { stock self.new ≡ with_train (stock self.old) train (kept changed) }
        ensures memory { Lent self.old self.new }
    {
        self.records[train] = changed;
    }

    // A train is taken out, and those behind it close up. The last record that was in use keeps what it holds.
    pub(crate) fn take_out(&mut self, train: usize)
        requires { train < self.old.count }
        ensures stock { stock self.new ≡ taken_out (stock self.old) train }
        ensures memory { Lent self.old self.new }
    {
        self.records.copy_within(train + 1..self.count, train);
        self.count -= 1;
    }
}

// The record of a train read and changed.
ghost use Rattle.std.specs.Prelude.{◌≡◌, ◌<◌, length};
ghost use Rattle.trackside.specs.Ground.{stands_in};
ghost use Rattle.yard.specs.Trains.{kept, stands_of, blank, extended, shortened, front_of, rear_of};

use crate::train::Train;
use table::{NoRoom, Table};
use trackside::answers::Stand;

impl Train {
    // A record that no train uses.
    pub fn new() -> Train
        ensures { kept result ≡ blank }
    {
        let none = Stand {
            block: 0,
            entered: 0,
        };
        Train {
            stands: Table::new(none),
        }
    }

    // A train that has just come in, with one stand.
    pub(crate) fn at(stand: Stand) -> Train
        ensures { kept result ≡ (extended blank stand).1 }
    {
        let mut train = Train::new();
        // there is room in a new record
        let _ = train.extend(stand);
        train
    }

    // The stands, rear first.
    pub(crate) fn stands(&self) -> &[Stand]
        ensures { result.now ≡ stands_of (kept self.now) }
    {
        self.stands.as_slice()
    }

    pub(crate) fn front(&self) -> Stand
        requires { 0 < length (stands_of (kept self.now)) }
        ensures { result ≡ front_of (kept self.now) }
    {
        self.stands().last().copied().unwrap()
    }

    pub(crate) fn rear(&self) -> Stand
        requires { 0 < length (stands_of (kept self.now)) }
        ensures { result ≡ rear_of (kept self.now) }
    {
        self.stands().first().copied().unwrap()
    }

    // Whether the train stands in the block.
    pub(crate) fn is_in(&self, block: u8) -> bool
        ensures { result ≡ stands_in (stands_of (kept self.now)) block }
    {
        self.stands().iter().any(|stand| stand.block == block)
    }

    // One more stand in front, where the record has a place for it.
    pub(crate) fn extend(&mut self, stand: Stand) -> Result<(), NoRoom>
        ensures { (result, kept self.new) ≡ extended (kept self.old) stand }
    {
        self.stands.push(stand)
    }

    // One stand less in the rear, where there is one.
    pub(crate) fn shorten(&mut self)
        ensures { kept self.new ≡ shortened (kept self.old) }
    {
        self.stands.remove(0);
    }
}

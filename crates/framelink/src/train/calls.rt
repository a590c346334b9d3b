// A train made, looked at, and moved on.
ghost use Rattle.std.specs.Prelude.{◌≡◌, ◌↔◌, ◌<◌, IsTrue, [], ◌∷◌, length, drop};
ghost use Rattle.trackside.specs.Ground.{stands_in};
ghost use Rattle.table.specs.Tables.{pushed};
ghost use Rattle.framelink.specs.Trains.{stands_of, front_stand, rear_stand};

use crate::train::Train;
use table::{NoRoom, Table};
use trackside::answers::Stand;

impl Train {
    // A train with one stand.
    pub(crate) fn new(stand: Stand) -> Train
        ensures { stands_of result ≡ stand ∷ [] }
    {
        let mut stands = Table::new(stand);
        // an empty table has room for one
        let _ = stands.push(stand);
        Train { stands }
    }

    pub(crate) fn rear(&self) -> Stand
        ensures { result ≡ rear_stand (stands_of self.now) }
    {
        self.stands.as_slice().first().copied().unwrap()
    }

    pub(crate) fn front(&self) -> Stand
        ensures { result ≡ front_stand (stands_of self.now) }
    {
        self.stands.as_slice().last().copied().unwrap()
    }

    // Whether it has another stand than its rear one.
    pub(crate) fn is_long(&self) -> bool
        ensures { IsTrue result ↔ (1 < length (stands_of self.now)) }
    {
        self.stands.len() > 1
    }

    // Whether one of the stands is in a block.
    pub(crate) fn stands_in(&self, block: u8) -> bool
        ensures { result ≡ stands_in (stands_of self.now) block }
    {
        self.stands
            .as_slice()
            .iter()
            .any(|stand| stand.block == block)
    }

    // Goes forward, where there is room.
    pub(crate) fn push(&mut self, stand: Stand) -> Result<(), NoRoom>
        ensures { (result, stands_of self.new) ≡ pushed 24 (stands_of self.old) stand }
    {
        self.stands.push(stand)
    }

    // Loses the rear stand, where another is left.
    pub(crate) fn shorten(&mut self)
        requires { 1 < length (stands_of self.old) }
        ensures { stands_of self.new ≡ drop 1 (stands_of self.old) }
    {
        self.stands.remove_first();
    }
}

// A train: where it stands, rear first. It stands on one block or more.
// The yard's record of a train is another type, since it has no stand while no train uses it.
ghost use Rattle.std.specs.Prelude.{◌<◌, length};
ghost use Rattle.table.specs.Tables.{items_of};

use table::Table;
use trackside::answers::Stand;

mod calls;

#[derive(Clone, Copy)]
pub(crate) struct Train {
    stands: Table<Stand, 24>,
    ghost some_stand: { 0 < length (items_of stands) },
}

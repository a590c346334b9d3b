// The trains in a yard, in records that are lent.
ghost use Rattle.std.specs.Prelude.{◌≤◌, length};

use crate::train::Train;

mod calls;

// The first `count` records are the trains, in the order of entering. The records are lent, since a Vec would take its memory from
// the heap.
#[derive(Drop)]
pub(crate) struct Fleet<'a> {
    records: &'a mut [Train],
    count: usize,
    ghost recorded: { count ≤ length records.now },
}

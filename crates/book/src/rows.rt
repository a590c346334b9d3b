// Rows of entries by number.
ghost use Rattle.std.specs.Prelude.{◌≡◌, slice_set};

// A number past the end of a row has no entry, and nothing is written there.
pub(crate) fn put<T: Copy>(row: &mut [T], number: u8, value: T)
    ensures { row.new ≡ slice_set row.old number value }
{
    // not by `get_mut`, of which a proof learns nothing about the row after the write
    let at = number as usize;
    if at < row.len() {
        row[at] = value;
    }
}

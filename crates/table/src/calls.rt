// A table made, looked at and changed. A contract says which items there are then (`items`), and what the memory holds (`memory`).
ghost use Rattle.std.specs.Prelude.{◌≡◌, ◌≤◌, [], length, drop, slice_set, IfOk};
ghost use Rattle.std.specs.List.{remove};
ghost use Rattle.table.specs.Tables.{kept, items_of, pushed, all_blank, items_or, fitting, filled, one_more, put_in, closed_up, first_out};

use crate::{NoRoom, Table};

impl<T: Copy, const N: usize> Table<T, N> {
    // A table with nothing in it; `fill` stands where no item is yet.
    pub fn new(fill: T) -> Table<T, N>
        ensures items { items_of result ≡ [] }
        ensures memory { kept result ≡ all_blank N fill }
    {
        Table {
            items: [fill; N],
            len: 0,
        }
    }

    // A table of these items, where there is room for all; `fill` stands behind them.
    pub fn from_slice(items: &[T], fill: T) -> Result<Table<T, N>, NoRoom>
        ensures items { items_or result ≡ fitting N items.now }
        ensures memory { IfOk result (λ t. kept t ≡ filled N items.now fill) }
    {
        if items.len() > N {
            return Err(NoRoom);
        }
        let mut places = [fill; N];
        places[..items.len()].copy_from_slice(items);
        Ok(Table {
            items: places,
            len: items.len(),
        })
    }

    // How many items there are.
    pub fn len(&self) -> usize
        ensures value { result ≡ length (items_of self.now) }
        ensures within { result ≤ N }
    {
        self.as_slice().len()
    }

    // The items.
    pub fn as_slice(&self) -> &[T]
        ensures value { result.now ≡ items_of self.now }
        ensures within { length result.now ≤ N }
    {
        &self.items[..self.len]
    }

    // One item more, behind the others, where there is room.
    pub fn push(&mut self, item: T) -> Result<(), NoRoom>
        ensures items { (result, items_of self.new) ≡ pushed N (items_of self.old) item }
        ensures memory { kept self.new ≡ one_more N (kept self.old) item }
    {
        if self.len >= N {
            return Err(NoRoom);
        }
        self.items[self.len] = item;
        self.len += 1;
        Ok(())
    }

    // Another item in the place of one; where there is no such item, nothing changes.
    pub fn set(&mut self, at: usize, item: T)
        ensures items { items_of self.new ≡ slice_set (items_of self.old) at item }
        ensures memory { kept self.new ≡ put_in (kept self.old) at item }
    {
        if at < self.len {
            self.items[at] = item;
        }
    }

    // Takes an item out, and those behind it close up; where there is no such item, nothing changes.
    pub fn remove(&mut self, at: usize)
        ensures items { items_of self.new ≡ remove (items_of self.old) at }
        ensures memory { kept self.new ≡ closed_up (kept self.old) at }
    {
        if at < self.len {
            self.items.copy_within(at + 1..self.len, at);
            self.len -= 1;
        }
    }

    // Takes the first item out, and those behind it move up; where there is none, nothing changes. All places move, in use or not:
    // it costs the same however many items there are.
    pub fn remove_first(&mut self)
        ensures items { items_of self.new ≡ drop 1 (items_of self.old) }
        ensures memory { kept self.new ≡ first_out (kept self.old) }
    {
        if self.len > 0 {
            self.items.copy_within(1..N, 0);
            self.len -= 1;
        }
    }
}

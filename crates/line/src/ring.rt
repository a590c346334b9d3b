// Where in a ring of slots the next item goes, and where the oldest lies.
ghost use Rattle.std.specs.Prelude.{◌≡◌, ◌<◌, ◌≤◌};
ghost use Rattle.line.specs.Rings.{back_of, front_of};

// The place behind `count` items that begin at `first`, in a ring of `size` places.
pub(crate) fn back(size: usize, first: usize, count: usize) -> usize
    requires { (first ≤ size) × (count < size) }
    ensures value { result ≡ back_of size first count }
    ensures within { result < size }
{
    let tail = size - first;
    if count < tail {
        first + count
    } else {
        count - tail
    }
}

// The place of the oldest item, where the items begin at `first`.
pub(crate) fn front(size: usize, first: usize) -> usize
    requires { 0 < size }
    ensures value { result ≡ front_of size first }
    ensures within { result < size }
{
    if first < size { first } else { 0 }
}

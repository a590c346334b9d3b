// The page: a yard at a glance, one byte a block and a check byte.
ghost use Rattle.std.specs.Prelude.{◌≡◌, ◌≤◌, length};
ghost use Rattle.trackside.specs.Pages.{page_mark, marks, check_of, drawn_page, number_of, place_of};

use crate::Look;
use crate::answers::Lamp;
use network::track::{Kind, Position};

// The buffer has no room for the page.
#[derive(Clone, Copy)]
pub enum PageRefusal {
    TooShort,
}

impl PageRefusal {
    pub fn number(&self) -> u8
        ensures { result ≡ number_of self.now }
    {
        match self {
            PageRefusal::TooShort => 48,
        }
    }

    pub fn place(&self) -> usize
        ensures { result ≡ place_of self.now }
    {
        match self {
            PageRefusal::TooShort => 0,
        }
    }
}

// The byte of a block: occupied, else how a point lies, else a green lamp, else nothing.
fn mark<L: Look>(looked: &L, block: u8) -> u8
    ensures { result ≡ page_mark (L.Look.as_ground looked.now) block }
{
    if looked.occupied(block) {
        return b'O';
    }
    if looked.kind(block) == Some(Kind::Point) {
        return match looked.position(block) {
            Position::Left => b'L',
            Position::Right => b'R',
        };
    }
    match looked.lamp(block) {
        Lamp::Green => b'G',
        Lamp::Red => b'-',
    }
}

// Fills a row with the bytes of as many blocks, from block 0 on, and answers their exclusive-or.
fn fill<L: Look>(looked: &L, row: &mut [u8]) -> u8
    requires { length row.old ≤ 64 }
    ensures row { row.new ≡ marks (L.Look.as_ground looked.now) (length row.old) }
    ensures check { result ≡ check_of (marks (L.Look.as_ground looked.now) (length row.old)) }
{
    let mut check = 0;
    for (block, place) in row.iter_mut().enumerate() {
        *place = mark(looked, block as u8);
        check ^= *place;
    }
    check
}

// Draws the page at the front of a buffer and answers its length. A buffer that is too short stays as it is.
pub fn draw<L: Look>(looked: &L, page: &mut [u8]) -> Result<usize, PageRefusal>
    ensures { (result, page.new) ≡ drawn_page (L.Look.as_ground looked.now) page.old }
{
    let count = looked.block_count();
    let needed = count + 1;
    if page.len() < needed {
        return Err(PageRefusal::TooShort);
    }
    let check = fill(looked, &mut page[0..count]);
    page[count] = check;
    Ok(needed)
}

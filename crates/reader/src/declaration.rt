// What one line declares: a block with its ends, or a route with its block numbers. A line of any other form is none.
ghost use Rattle.std.specs.Prelude.{◌≡◌, ◌∷◌, Some};
ghost use Rattle.reader.specs.Reads.{joints, numbers, listed, words_say, line_says};
ghost use Rattle.reader.specs.Views.{ahead, block_said, kind_named, block_of, route_said, said, told};

use crate::bytes::spells;
use crate::named::named;
use crate::words::Words;
use network::track::{Block, Joint, Kind};
use table::{NoRoom, Table};

#[derive(Drop)]
pub(crate) enum Declaration {
    Block(Block),
    // no route has more than 24 blocks
    Route(Result<Table<u8, 24>, NoRoom>),
}

// The block of a kind with these ends: a plain block has two, a point three, a crossing four.
fn block(kind: Kind, ends: &[Joint]) -> Option<Block>
    ensures { block_said result ≡ block_of kind (Some ends.now) }
{
    match (kind, ends) {
        (Kind::Plain, [a, b]) => Some(Block::Plain(*a, *b)),
        (Kind::Point, [a, b, c]) => Some(Block::Point(*a, *b, *c)),
        (Kind::Crossing, [a, b, c, d]) => Some(Block::Crossing(*a, *b, *c, *d)),
        _ => None,
    }
}

// The block of a kind with the ends that the words name.
fn with_ends(kind: Kind, words: &mut Words) -> Option<Block>
    ensures { block_said result ≡ block_of kind (joints words.old.line (ahead words.old)) }
{
    let ends = named::<Joint, 4>(words)?.ok()?;
    block(kind, ends.as_slice())
}

// A route has at least one number.
fn route(words: &mut Words) -> Option<Result<Table<u8, 24>, NoRoom>>
    ensures { route_said result ≡ told (listed (numbers words.old.line (ahead words.old))) }
{
    let listed = named::<u8, 24>(words)?;
    if let Ok(numbers) = listed {
        if numbers.len() == 0 {
            return None;
        }
    }
    Some(listed)
}

// The kind of block that a keyword declares.
fn kind(keyword: &[u8]) -> Option<Kind>
    ensures { result ≡ kind_named keyword.now }
{
    // not a match on byte strings: its proof does not close at a word of eight bytes
    if spells(keyword, b"plain") {
        Some(Kind::Plain)
    } else if spells(keyword, b"point") {
        Some(Kind::Point)
    } else if spells(keyword, b"crossing") {
        Some(Kind::Crossing)
    } else {
        None
    }
}

// What the words behind a keyword declare.
fn declared(keyword: &[u8], words: &mut Words) -> Option<Declaration>
    ensures { said result ≡ told (words_say words.old.line (keyword.now ∷ ahead words.old)) }
{
    if let Some(kind) = kind(keyword) {
        return Some(Declaration::Block(with_ends(kind, words)?));
    }
    if spells(keyword, b"route") {
        return Some(Declaration::Route(route(words)?));
    }
    None
}

impl Declaration {
    pub(crate) fn read(text: &[u8], line: usize) -> Option<Declaration>
        ensures { said result ≡ told (line_says line text.now) }
    {
        let mut words = Words::new(text, line);
        let keyword = words.word()?;
        declared(keyword, &mut words)
    }
}

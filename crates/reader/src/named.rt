// What words name: the ends of a block, and the numbers of blocks.
ghost use Rattle.std.specs.Prelude.{◌≡◌, Option};
ghost use Rattle.reader.specs.Words.{Shown, shown, joint_of, number_of};
ghost use Rattle.reader.specs.Reads.{each_read};
ghost use Rattle.reader.specs.Views.{ahead, kept_if, all_kept};

use crate::token::{Token, number};
use crate::words::Words;
use network::track::Joint;
use table::{NoRoom, Table};

pub(crate) trait FromToken: Copy {
    ghost said: { Shown → Option Self };

    // What stands in a table where nothing is named yet.
    const BLANK: Self;

    fn from_token(token: Token) -> Option<Self>
        ensures { result ≡ said (shown token.entry) };
}

impl FromToken for Joint {
    ghost said = { joint_of };

    const BLANK: Joint = Joint::Outer;

    fn from_token(token: Token) -> Option<Joint> {
        match token {
            Token::Dash { .. } => Some(Joint::Outer),
            Token::Dotted { block, end, .. } => Some(Joint::Joined {
                block: number(block)?,
                end: number(end)?,
            }),
            Token::Word { .. } => None,
        }
    }
}

impl FromToken for u8 {
    ghost said = { number_of };

    const BLANK: u8 = 0;

    fn from_token(token: Token) -> Option<u8> {
        match token {
            Token::Word { text, .. } => number(text),
            _ => None,
        }
    }
}

// What the words name, in order: none where one names no such thing. Of more than N things only that there are too many is known.
pub(crate) fn named<T: FromToken, const N: usize>(
    words: &mut Words,
) -> Option<Result<Table<T, N>, NoRoom>>
    ensures { kept_if result ≡ all_kept N (each_read T.said words.old.line (ahead words.old)) }
{
    let mut table = Table::new(T::BLANK);
    let mut fits = Ok(());
    while let Some(token) = words.next() {
        fits = fits.and(table.push(T::from_token(token)?));
    }
    Some(fits.and(Ok(table)))
}

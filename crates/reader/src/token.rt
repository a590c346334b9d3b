// The words of a line, as cases that hold parts of the lent sheet, each with its line.
ghost use Rattle.std.specs.Prelude.{◌≡◌};
ghost use Rattle.reader.specs.Words.{shown, token_of, digit, number};

use crate::bytes::{spells, split_once};

#[derive(Clone, Copy)]
pub enum Token<'a> {
    Dash {
        line: usize,
    },
    Dotted {
        block: &'a [u8],
        end: &'a [u8],
        line: usize,
    },
    Word {
        text: &'a [u8],
        line: usize,
    },
}

// The value of a decimal digit.
fn digit(byte: u8) -> Option<u8>
    ensures { result ≡ digit byte }
{
    match byte {
        b'0'..=b'9' => Some(byte - b'0'),
        _ => None,
    }
}

// A number of one digit, or of two without a leading zero.
pub fn number(text: &[u8]) -> Option<u8>
    ensures { result ≡ number text.now }
{
    match text {
        [units] => digit(*units),
        [b'0', _] => None,
        [tens, units] => Some(10 * digit(*tens)? + digit(*units)?),
        _ => None,
    }
}

impl<'a> Token<'a> {
    // The token that a word stands for.
    pub(crate) fn of(word: &'a [u8], line: usize) -> Token<'a>
        ensures { shown result ≡ token_of word.now line }
    {
        if spells(word, b"-") {
            return Token::Dash { line };
        }
        match split_once(word, b'.') {
            Some((block, end)) => Token::Dotted { block, end, line },
            None => Token::Word { text: word, line },
        }
    }
}

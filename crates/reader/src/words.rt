// The words of a line, read one by one. Words are parted by single spaces.
ghost use Rattle.std.specs.Prelude.{◌≡◌};
ghost use Rattle.reader.specs.Words.{pieces};
ghost use Rattle.reader.specs.Views.{ahead, head, tail, held, seen, token_in};

use crate::bytes::split_once;
use crate::token::Token;

#[derive(Drop)]
pub(crate) struct Words<'a> {
    // what is left of the line: none behind the last word, since an empty rest can be an empty word
    rest: Option<&'a [u8]>,
    line: usize,
}

impl<'a> Words<'a> {
    pub(crate) fn new(text: &'a [u8], line: usize) -> Words<'a>
        ensures words { ahead result ≡ pieces 32 text.now }
        ensures line { result.line ≡ line }
    {
        Words {
            rest: Some(text),
            line,
        }
    }

    // The next word as it stands.
    pub(crate) fn word(&mut self) -> Option<&'a [u8]>
        ensures word { held result ≡ head (ahead self.old) }
        ensures rest { ahead self.new ≡ tail (ahead self.old) }
        ensures line { self.new.line ≡ self.old.line }
    {
        let rest = self.rest?;
        match split_once(rest, b' ') {
            Some((word, behind)) => {
                self.rest = Some(behind);
                Some(word)
            }
            None => {
                self.rest = None;
                Some(rest)
            }
        }
    }

    // The next word as a token. No `Iterator`: a keyword is read as it stands, and only the words behind it as tokens.
    pub(crate) fn next(&mut self) -> Option<Token<'a>>
        ensures token { seen result ≡ token_in (head (ahead self.old)) self.old.line }
        ensures rest { ahead self.new ≡ tail (ahead self.old) }
        ensures line { self.new.line ≡ self.old.line }
    {
        let line = self.line;
        let word = self.word()?;
        Some(Token::of(word, line))
    }
}

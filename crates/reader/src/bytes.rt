// Bytes compared, counted up to a mark, and cut at it.
ghost use Rattle.std.specs.Prelude.{◌≡◌, ◌≤◌, length};
ghost use Rattle.std.specs.Str.{bytes_eq};
ghost use Rattle.reader.specs.Words.{before, cut};
ghost use Rattle.reader.specs.Views.{both_held};

// How many bytes stand before the first `mark`: all of them where there is none.
pub fn piece_len(text: &[u8], mark: u8) -> usize
    ensures value { result ≡ before mark text.now }
    ensures within { result ≤ length text.now }
{
    text.iter().position(|b| *b == mark).unwrap_or(text.len())
}

// The text before the first `mark` and the text behind it, or none where there is no mark.
pub fn split_once(text: &[u8], mark: u8) -> Option<(&[u8], &[u8])>
    ensures { both_held result ≡ cut mark text.now }
{
    let n = piece_len(text, mark);
    if n >= text.len() {
        return None;
    }
    Some((&text[..n], &text[n + 1..]))
}

// Whether the text is the word.
pub fn spells(text: &[u8], word: &[u8]) -> bool
    ensures { result ≡ bytes_eq text.now word.now }
{
    text == word
}

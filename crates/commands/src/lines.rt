// A text, line by line. A last line that lacks its line end is a line too.
ghost use Rattle.std.specs.Prelude.{◌≡◌, ◌<◌, length, Some, None};
ghost use Rattle.commands.specs.Lines.{split, split_line, lines_of, lines_in};

use reader::split_once;

// The first line of a text, without its line end, and what follows it.
#[derive(Clone, Copy)]
pub struct Line<'a> {
    pub text: &'a [u8],
    pub rest: &'a [u8],
}

// The first line of a text: none where the text is empty. No `Iterator`: what follows the line is asked for too.
pub fn next_line(text: &[u8]) -> Option<Line<'_>>
    ensures value { split result ≡ split_line text.now }
    ensures lines { lines_of text.now ≡ lines_in (split result) }
    ensures shorter { elim result [ Some l ↦ length l.rest.now < length text.now | None ↦ Unit {0} ] }
{
    if text.is_empty() {
        return None;
    }
    let (text, rest) = split_once(text, b'\n').unwrap_or((text, &[]));
    Some(Line { text, rest })
}

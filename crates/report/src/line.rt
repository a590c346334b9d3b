// A line of a sheet, shown so that each of its bytes can be read.
ghost use Rattle.std.specs.Prelude.{◌≡◌, ◌<◌, [], Some, slice_index_or};
ghost use Rattle.std.specs.Char.{digit_char};
ghost use Rattle.std.specs.List.{flat_map};
ghost use Rattle.reader.specs.Words.{pieces};
ghost use Rattle.report.specs.Texts.{is_visible, byte_text};

use std::fmt;

// The line behind that many line ends, without its own; nothing where there is no such line.
pub(crate) fn line_behind(text: &[u8], ends: usize) -> &[u8]
    ensures { result.now ≡ slice_index_or (pieces 10 text.now) ends [] }
{
    text.split(|b| *b == b'\n').nth(ends).unwrap_or(&[])
}

// A byte that stands in the quoted line as it is.
fn is_visible(byte: u8) -> bool
    ensures { result ≡ is_visible byte }
{
    matches!(byte, b' '..=b'~') && byte != b'"' && byte != b'\\'
}

fn hex_digit(n: u8) -> char
    requires { n < 16 }
    ensures value { result ≡ digit_char n }
    ensures ascii { result < 128 }
{
    if n < 10 {
        (b'0' + n) as char
    } else {
        (b'a' + (n - 10)) as char
    }
}

// A byte, shown as itself or by its two hexadecimal digits.
#[derive(Clone, Copy)]
struct Shown(u8);

impl fmt::Display for Shown {
    ghost output = { λ x. Some (byte_text x.0) };

    fn fmt<W: fmt::Write>(&self, f: &mut fmt::Formatter<W>) -> fmt::Result {
        let byte = self.0;
        // not by `write!`: a line may have thousands of bytes, and the formatter would take up to twice as long
        let mut utf8 = [0; 4];
        if is_visible(byte) {
            return f.write_str((byte as char).encode_utf8(&mut utf8));
        }
        f.write_str("\\x")?;
        f.write_str(hex_digit(byte / 16).encode_utf8(&mut utf8))?;
        f.write_str(hex_digit(byte % 16).encode_utf8(&mut utf8))
    }
}

// A line, each byte as it is shown.
#[derive(Clone, Copy)]
pub(crate) struct Line<'a>(pub(crate) &'a [u8]);

impl fmt::Display for Line<'_> {
    ghost output = { λ x. Some (flat_map byte_text x.0.now) };

    fn fmt<W: fmt::Write>(&self, f: &mut fmt::Formatter<W>) -> fmt::Result {
        for byte in self.0 {
            fmt::Display::fmt(&Shown(*byte), f)?;
        }
        Ok(())
    }
}

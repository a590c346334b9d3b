// The reader for programs in other languages: a text comes as its address and its length in bytes. C asks for the number and
// for the line by a call of its own each, and takes nothing for none, so 0 stands for it.
#![tactic(auto)]

ghost use Rattle.std.specs.Prelude.{◌≡◌};
ghost use Rattle.reader.specs.Reads.{read};
ghost use Rattle.exports.specs.Answers.{number_in, line_in};

// The number of the refusal of a sheet, or 0 where it is accepted.
#[unsafe(no_mangle)]
pub extern "C" fn vizgolen_sheet_number(text: &[u8]) -> u8
    ensures { result ≡ number_in (read text.now) }
{
    reader::read(text)
        .err()
        .map_or(0, |refusal| refusal.number())
}

// The line that is refused, from 1, or 0 where the sheet is accepted or is refused as a whole.
#[unsafe(no_mangle)]
pub extern "C" fn vizgolen_sheet_line(text: &[u8]) -> usize
    ensures { result ≡ line_in (read text.now) }
{
    reader::read(text).err().map_or(0, |refusal| refusal.line())
}

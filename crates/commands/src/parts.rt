// An input in its two parts: a sheet, and behind the first line that is just `.`, commands.
ghost use Rattle.std.specs.Prelude.{◌≡◌};
ghost use Rattle.commands.specs.Parts.{ends_sheet, sheet_of, commands_of, Parted};

use crate::lines::next_line;
use reader::spells;

#[derive(Clone, Copy)]
pub struct Parts<'a> {
    pub sheet: &'a [u8],
    pub commands: &'a [u8],
}

// Whether a line is the one that ends the sheet.
fn ends_sheet(line: &[u8]) -> bool
    ensures { result ≡ ends_sheet line.now }
{
    spells(line, b".")
}

// The parts of an input: all of it is the sheet where no line is `.`.
pub fn parted(input: &[u8]) -> Parts<'_>
    ensures sheet { result.sheet.now ≡ sheet_of input.now }
    ensures commands { result.commands.now ≡ commands_of input.now }
    ensures parted { Parted input.now result.sheet.now result.commands.now }
{
    // the rest is walked and nothing is counted, since where a line begins is asked too
    let mut rest = input;
    while let Some(line) = next_line(rest) {
        if ends_sheet(line.text) {
            return Parts {
                sheet: &input[..input.len() - rest.len()],
                commands: line.rest,
            };
        }
        rest = line.rest;
    }
    Parts {
        sheet: input,
        commands: rest,
    }
}

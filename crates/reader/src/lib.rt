// Reads a sheet: the text by which the drawing office declares a yard.
#![tactic(auto)]

ghost use Rattle.reader.specs.Text.{Answers};
ghost use Rattle.reader.specs.Views.{plan_in};

use network::sheet::Sheet;

mod bytes;
mod declaration;
mod named;
mod reader;
pub mod refusal;
mod token;
mod words;

pub use bytes::{piece_len, spells, split_once};
pub use refusal::Refusal;
pub use token::number;

// Reads a sheet and judges it: the sheet, or the first thing that is wrong with it.
pub fn read(text: &[u8]) -> Result<Sheet, Refusal>
    ensures { Answers text.now (plan_in result) }
{
    reader::sheet(text)
}

// Reads a sheet line by line. The number of a line goes beside the drawing, for the refusal that may have to name it.
ghost use Rattle.std.specs.Prelude.{◌≡◌};
ghost use Rattle.network.specs.Drawing.{drawn, empty};
ghost use Rattle.reader.specs.Words.{pieces};
ghost use Rattle.reader.specs.Reads.{declare, line_says, lines_declare, refusal_of};
ghost use Rattle.reader.specs.Text.{Answers};
ghost use Rattle.reader.specs.Views.{plan_in, outcome, drawn_in, kept, block_declared, route_declared};

use crate::bytes::split_once;
use crate::declaration::Declaration;
use crate::refusal::Refusal;
use network::drawing::Drawing;
use network::rules::Broken;
use network::sheet::Sheet;
use network::track::Block;
use table::{NoRoom, Table};

// Declares the next block. No block line may stand behind a route line.
fn declare_block(drawing: &mut Drawing, block: Block, line: usize) -> Result<(), Refusal>
    ensures { outcome result (drawn drawing.new) ≡ block_declared (drawn drawing.old) line block }
{
    if drawing.routes() > 0 {
        return Err(Refusal::Form { line });
    }
    drawing
        .add_block(block)
        .map_err(|_| Refusal::Limit { line })
}

// Declares the next route.
fn declare_route(
    drawing: &mut Drawing,
    listed: Result<Table<u8, 24>, NoRoom>,
    line: usize,
) -> Result<(), Refusal>
    ensures { outcome result (drawn drawing.new) ≡ route_declared (drawn drawing.old) line (kept listed) }
{
    let numbers = listed.map_err(|_| Refusal::Limit { line })?;
    drawing
        .add_listed(numbers)
        .map_err(|_| Refusal::Limit { line })
}

// Declares in the drawing what one line says.
fn declare(drawing: &mut Drawing, text: &[u8], line: usize) -> Result<(), Refusal>
    ensures { outcome result (drawn drawing.new) ≡ declare (drawn drawing.old) line (line_says line text.now) }
{
    match Declaration::read(text, line).ok_or(Refusal::Form { line })? {
        Declaration::Block(block) => declare_block(drawing, block, line),
        Declaration::Route(listed) => declare_route(drawing, listed, line),
    }
}

// The drawing of a whole text. Every line has a line end, the last one too.
fn declarations(text: &[u8]) -> Result<Drawing, Refusal>
    ensures { drawn_in result ≡ lines_declare empty 1 (pieces 10 text.now) }
{
    let mut drawing = Drawing::new();
    // not by the library's cuts at line ends: those keep the end, which would have to be asked for and taken off again
    let mut rest = text;
    let mut line = 1;
    while !rest.is_empty() {
        let (said, behind) = split_once(rest, b'\n').ok_or(Refusal::Form { line })?;
        declare(&mut drawing, said, line)?;
        rest = behind;
        line += 1;
    }
    Ok(drawing)
}

// Where a broken rule stands: block b on line b + 1, and the routes behind all blocks.
fn refusal(drawing: &Drawing, broken: Broken) -> Refusal
    ensures { result ≡ refusal_of (drawn drawing.now) broken }
{
    match broken {
        Broken::Block { rule, block } => Refusal::Block {
            rule,
            line: block as usize + 1,
        },
        Broken::Route { rule, route } => Refusal::Route {
            rule,
            line: drawing.blocks() + route as usize + 1,
        },
    }
}

// A sheet has at most this many bytes.
const MOST_BYTES: usize = 8192;

// The sheet that a text comes to, or the first thing that is wrong with it.
pub(crate) fn sheet(text: &[u8]) -> Result<Sheet, Refusal>
    ensures { Answers text.now (plan_in result) }
{
    if text.len() > MOST_BYTES {
        return Err(Refusal::TooLong);
    }
    let drawing = declarations(text)?;
    if drawing.blocks() == 0 || drawing.routes() == 0 {
        return Err(Refusal::Empty);
    }
    Sheet::judge(&drawing).map_err(|broken| refusal(&drawing, broken))
}

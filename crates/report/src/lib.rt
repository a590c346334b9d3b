// Says in plain words what was found in a sheet: what it declares, or what is wrong with it and where.
#![tactic(auto)]

ghost use Rattle.std.specs.Prelude.{is_ok, IfOk, string_bytes};
ghost use Rattle.reader.specs.Text.{Answers};
ghost use Rattle.reader.specs.Views.{plan_in};
ghost use Rattle.report.specs.Reports.{Reports};

use accepted::Accepted;
use network::sheet::Sheet;
use reader::{Refusal, read};
use refused::Refused;
use std::alloc::{AllocError, Global};

mod accepted;
mod line;
mod refused;

// What is said of a sheet, and whether it was accepted. Each report has both: as two variants of a text, callers would have
// to take either apart to print it.
#[derive(Drop)]
pub struct Report {
    pub text: String,
    pub accepted: bool,
}

// The text of the report on a sheet, for what reading it came to.
fn text(heap: Global, sheet: &[u8], found: &Result<Sheet, Refusal>) -> Result<String, AllocError>
    ensures { IfOk result (λ s. Answers sheet.now (plan_in found.now) → Reports sheet.now (string_bytes s) (is_ok found.now)) }
{
    match found {
        Ok(found) => Accepted(found).to_string(heap),
        Err(refusal) => Refused { refusal, sheet }.to_string(heap),
    }
}

// Reads a sheet and reports on it.
pub fn report_on(heap: Global, sheet: &[u8]) -> Result<Report, AllocError>
    ensures { IfOk result (λ x. Reports sheet.now (string_bytes x.text) x.accepted) }
{
    let found = read(sheet);
    let text = text(heap, sheet, &found)?;
    Ok(Report {
        text,
        accepted: found.is_ok(),
    })
}

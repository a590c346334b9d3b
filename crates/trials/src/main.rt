// Tries sheets case by case, and prints for each what the reader answers: `ok`, how many blocks and how many routes, or
// `no`, the number of the refusal and its line.
#![tactic(auto)]

ghost use Rattle.std.specs.Prelude.{◌≡◌, ◌++◌, IfOk, string_bytes, codes};
ghost use Rattle.reader.specs.Reads.{read};
ghost use Rattle.trials.specs.Answers.{words_of};

use answer::Answer;
use built::Built;
use case::Case;
use std::alloc::{AllocError, Global};
use std::io;

mod answer;
mod built;
mod case;
mod forms;
mod limits;
mod order;
mod rules;

// The line of a trial: its name, and the answer to its text.
fn line(heap: Global, name: &str, text: &[u8]) -> Result<String, AllocError>
    ensures { IfOk result (λ s. string_bytes s ≡ name.now ++ (codes ": " ++ words_of (read text.now))) }
{
    let answer = Answer(reader::read(text));
    format!(in heap; "{name}: {answer}")
}

// Tries every case of a table.
fn try_all(rt: &HostRuntime, cases: &[Case]) -> io::Result<()> {
    for case in cases {
        rt.println(line(rt.alloc(), case.name, case.text)?)?;
    }
    Ok(())
}

// Builds and tries every sheet of a table.
fn try_built(rt: &HostRuntime, sheets: &[Built]) -> io::Result<()> {
    for sheet in sheets {
        let text = built::build(rt.alloc(), sheet.parts)?;
        rt.println(line(rt.alloc(), sheet.name, &text)?)?;
    }
    Ok(())
}

fn main(rt: HostRuntime) -> io::Result<()> {
    try_all(&rt, &rules::RULES)?;
    try_all(&rt, &order::ORDER)?;
    try_all(&rt, &forms::FORMS)?;
    try_built(&rt, &limits::LIMITS)
}

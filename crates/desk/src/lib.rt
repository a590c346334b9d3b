// The dispatcher's desk: commands read, obeyed by an interlocking, and answered, one after the other.
#![tactic(auto)]

ghost use Rattle.std.specs.Prelude.{◌≡◌, string_bytes, OnOk};
ghost use Rattle.commands.specs.Commands.{command_of};
ghost use Rattle.commands.specs.Lines.{lines_of};
ghost use Rattle.desk.specs.Answers.{shown_number, refused_answer, told, seen};
ghost use Rattle.desk.specs.Days.{Obeys, AnswersIf, Played, Worked};

use book::refusal::Refusal;
use commands::{Answer, Command, next_line, read_command, write_answer};
use interlocking::Interlocking;
use std::alloc::AllocError;
use trackside::answers::Moved;
use trackside::wishing::Wishing;
use yard::wish::Wish;

// The number by which the control room knows a line that is no command.
const NO_COMMAND: u8 = 49;

// The number of a refusal, or of the fault below that it passes up.
fn shown_number(refusal: &Refusal) -> u8
    ensures { result ≡ shown_number refusal.now }
{
    match refusal {
        Refusal::Fault(fault) => fault.number,
        _ => refusal.number(),
    }
}

fn refused(refusal: Refusal) -> Answer
    ensures { result ≡ refused_answer refusal }
{
    Answer::Refused {
        number: shown_number(&refusal),
        place: refusal.place(),
    }
}

fn told(answer: Result<usize, Refusal>) -> Answer
    ensures { result ≡ told answer }
{
    answer.map_or_else(refused, Answer::Done)
}

fn seen(answer: Result<Moved, Refusal>) -> Answer
    ensures { result ≡ seen answer }
{
    answer.map_or_else(refused, |moved| match moved {
        Moved::Quiet => Answer::Quiet,
        Moved::Enter { block, .. } | Moved::Forward { block, .. } => Answer::Occupied(block),
        Moved::Clear { block, .. } => Answer::Cleared(block),
    })
}

// What a command is answered.
pub fn obey<T: Wishing<Wish = Wish>>(interlocking: &mut Interlocking<T>, command: Command) -> Answer
    ensures { Obeys T.Look T.Wishing.joins interlocking.old command result interlocking.new }
{
    // a command is what was asked for, read from a line: nobody could hand in the call instead
    match command {
        Command::Reserve { route } => told(interlocking.reserve(route)),
        Command::Lay { route } => told(interlocking.lay(route)),
        Command::Form { route } => told(interlocking.form(route)),
        Command::Open { route } => told(interlocking.open(route)),
        Command::Cancel { route } => told(interlocking.cancel(route)),
        Command::Free { route } => told(interlocking.free(route)),
        Command::Wish(wish) => told(interlocking.wish(wish).map(|()| 0)),
        Command::Watch => seen(interlocking.watch()),
    }
}

// What a line is answered. A line that is no command changes nothing.
pub fn answer<T: Wishing<Wish = Wish>>(interlocking: &mut Interlocking<T>, line: &[u8]) -> Answer
    ensures { AnswersIf T.Look T.Wishing.joins (command_of line.now) interlocking.old result interlocking.new }
{
    match read_command(line) {
        Some(command) => obey(interlocking, command),
        None => Answer::Refused {
            number: NO_COMMAND,
            place: 0,
        },
    }
}

// Answers each line in turn, and writes the answers behind a text. It fails only where memory is wanting; even then what was
// done up to there is a history of calls.
pub fn play<T: Wishing<Wish = Wish>>(
    interlocking: &mut Interlocking<T>,
    out: &mut String,
    commands: &[u8],
) -> Result<(), AllocError>
    ensures played { OnOk result (Played T.Look T.Wishing.joins interlocking.old (lines_of commands.now) (string_bytes out.old) (string_bytes out.new) interlocking.new) }
    ensures worked { Worked T.Look T.Wishing.joins interlocking.old interlocking.new }
{
    // the rest is walked and nothing is counted: the lines are those of `next_line`
    let mut rest = commands;
    while let Some(line) = next_line(rest) {
        write_answer(out, answer(interlocking, line.text))?;
        rest = line.rest;
    }
    Ok(())
}

// What a command is answered, a line for each answer. A refusal is printed as the others are and stops nothing, so it is no `Err`;
// dispatchers know it by its number.
ghost use Rattle.std.specs.Prelude.{◌≡◌, ◌++◌, Some, is_ok, if◌then◌else◌, string_bytes};
ghost use Rattle.commands.specs.Answers.{answer_text};

use std::alloc::AllocError;
use std::fmt;

#[derive(Clone, Copy)]
pub enum Answer {
    // it is done, with a number
    Done(usize),
    // it is refused, by the number of the refusal and the place that it names
    Refused { number: u8, place: usize },
    // a block is now occupied
    Occupied(u8),
    // a block is now clear
    Cleared(u8),
    // nothing happened
    Quiet,
}

impl fmt::Display for Answer {
    ghost output = { λ a. Some (answer_text a) };

    fn fmt<W: fmt::Write>(&self, f: &mut fmt::Formatter<W>) -> fmt::Result {
        match self {
            Answer::Done(number) => writeln!(f, "ok {number}"),
            Answer::Refused { number, place } => writeln!(f, "no {number} {place}"),
            Answer::Occupied(block) => writeln!(f, "occ {block}"),
            Answer::Cleared(block) => writeln!(f, "clr {block}"),
            Answer::Quiet => writeln!(f, "quiet"),
        }
    }
}

// Adds the line of an answer to a text, or nothing where memory is wanting: so a text never ends within an answer.
pub fn write_answer(out: &mut String, answer: Answer) -> Result<(), AllocError>
    ensures { string_bytes out.new ≡ (if is_ok result then string_bytes out.old ++ answer_text answer else string_bytes out.old) }
{
    let text = answer.to_string(*out.allocator())?;
    out.push_str(text.as_str())
}

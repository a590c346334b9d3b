// What comes of a trial, and how it is printed.
ghost use Rattle.std.specs.Prelude.{Some};
ghost use Rattle.reader.specs.Views.{plan_in};
ghost use Rattle.trials.specs.Answers.{words_of};

use network::sheet::Sheet;
use reader::Refusal;
use std::fmt;

// What reading a text came to: how many blocks and routes were accepted, or the number and the line of the refusal.
#[derive(Clone, Copy)]
pub(crate) struct Answer(pub(crate) Result<Sheet, Refusal>);

impl fmt::Display for Answer {
    ghost output = { λ x. Some (words_of (plan_in x.0)) };

    fn fmt<W: fmt::Write>(&self, f: &mut fmt::Formatter<W>) -> fmt::Result {
        match &self.0 {
            Ok(sheet) => write!(f, "ok {} {}", sheet.network().len(), sheet.routes()),
            Err(refusal) => write!(f, "no {} {}", refusal.number(), refusal.line()),
        }
    }
}

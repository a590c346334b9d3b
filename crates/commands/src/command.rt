// A command as the dispatcher writes it: a word, a space and a number of at most two digits, or the word `watch` alone.
ghost use Rattle.std.specs.Prelude.{◌≡◌};
ghost use Rattle.commands.specs.Commands.{asked, wished, command_of, Reads};

use reader::{number, spells, split_once};
use yard::wish::Wish;

#[derive(Clone, Copy)]
pub enum Command {
    Reserve { route: u8 },
    Lay { route: u8 },
    Form { route: u8 },
    Open { route: u8 },
    Cancel { route: u8 },
    Free { route: u8 },
    Wish(Wish),
    Watch,
}

// What a word asks for, with its number. A `match` on the words would branch at each byte: its last arm came to 28 cases, and
// the check proved neither that nor the arms of the longest words.
fn asked(word: &[u8], number: u8) -> Option<Command>
    ensures { result ≡ asked word.now number }
{
    if spells(word, b"reserve") {
        return Some(Command::Reserve { route: number });
    }
    if spells(word, b"lay") {
        return Some(Command::Lay { route: number });
    }
    if spells(word, b"form") {
        return Some(Command::Form { route: number });
    }
    if spells(word, b"open") {
        return Some(Command::Open { route: number });
    }
    if spells(word, b"cancel") {
        return Some(Command::Cancel { route: number });
    }
    if spells(word, b"free") {
        return Some(Command::Free { route: number });
    }
    wished(word, number).map(Command::Wish)
}

// What a word wishes of the trains, with its number.
fn wished(word: &[u8], number: u8) -> Option<Wish>
    ensures { result ≡ wished word.now number }
{
    if spells(word, b"enter") {
        return Some(Wish::Enter { block: number });
    }
    let train = usize::from(number);
    if spells(word, b"forward") {
        return Some(Wish::Forward { train });
    }
    if spells(word, b"clear") {
        return Some(Wish::Clear { train });
    }
    None
}

// The command that a line is: none where the line has any other form.
pub fn read_command(line: &[u8]) -> Option<Command>
    ensures value { result ≡ command_of line.now }
    ensures reads { Reads line.now result }
{
    if spells(line, b"watch") {
        return Some(Command::Watch);
    }
    let (word, behind) = split_once(line, b' ')?;
    asked(word, number(behind)?)
}

// An act upon a trackside, and the line that tells of it.
use network::track::Position;
use std::alloc::{AllocError, Global};
use std::fmt;
use trackside::answers::{Fault, Lamp, Moved, Stuck};
use trackside::page::draw;
use trackside::{Look, Work};

#[derive(Clone, Copy)]
pub(crate) enum Act {
    Throw { block: u8, position: Position },
    Light { block: u8, lamp: Lamp },
    Move,
}

// These three say in a word what values of other crates are; only those could give them a `Display`.
fn outcome_text(outcome: Result<(), Stuck>) -> &'static str {
    outcome.map_or("stuck", |()| "done")
}

fn position_text(position: Position) -> &'static str {
    match position {
        Position::Left => "left",
        Position::Right => "right",
    }
}

fn lamp_text(lamp: Lamp) -> &'static str {
    match lamp {
        Lamp::Red => "red",
        Lamp::Green => "green",
    }
}

// What a move told.
#[derive(Clone, Copy)]
struct Movement(Result<Moved, Fault>);

impl fmt::Display for Movement {
    fn fmt<W: fmt::Write>(&self, f: &mut fmt::Formatter<W>) -> fmt::Result {
        match self.0 {
            Err(Fault { number, place }) => write!(f, "fault {number} at {place}"),
            Ok(Moved::Quiet) => write!(f, "quiet"),
            Ok(Moved::Enter { train, block }) => write!(f, "train {train} enters {block}"),
            Ok(Moved::Forward { train, block }) => write!(f, "train {train} goes to {block}"),
            Ok(Moved::Clear { train, block }) => write!(f, "train {train} clears {block}"),
        }
    }
}

fn told<T: Work>(heap: Global, trackside: &mut T, act: Act) -> Result<String, AllocError> {
    // an act is data that is played, kept in the table of a day
    match act {
        Act::Throw { block, position } => {
            let outcome = outcome_text(trackside.throw(block, position));
            format!(in heap; "throw {block} {}: {outcome}", position_text(position))
        }
        Act::Light { block, lamp } => {
            let outcome = outcome_text(trackside.light(block, lamp));
            format!(in heap; "light {block} {}: {outcome}", lamp_text(lamp))
        }
        Act::Move => Movement(trackside.step()).to_string(heap),
    }
}

// The page without its check byte.
fn page_text<L: Look>(heap: Global, looked: &L) -> Result<String, AllocError> {
    let mut page = [0; 65];
    let drawn = draw(looked, &mut page).unwrap_or(0);
    page.iter()
        .take(drawn.saturating_sub(1))
        .map(|mark| *mark as char)
        .collect(heap)
}

pub(crate) fn line<T: Work>(
    heap: Global,
    trackside: &mut T,
    act: Act,
) -> Result<String, AllocError> {
    let told = told(heap, trackside, act)?;
    let page = page_text(heap, trackside)?;
    format!(in heap; "{page} {told}")
}

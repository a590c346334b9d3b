// The interlocking: it takes over a trackside and works it by an accepted sheet, one call at a time, so that no two trains meet.
#![tactic(auto)]

use book::Book;
use book::refusal::Unfit;
use network::sheet::Sheet;
use trackside::Work;

mod acts;
mod calls;
mod fitness;
mod guards;
mod making;
mod points;
mod possession;
pub mod request;
pub mod requests;
pub mod staff;
mod wishes;

// It holds its trackside, so that nobody else can throw a point or light a lamp there.
#[derive(Drop)]
pub struct Interlocking<T: Work> {
    trackside: T,
    sheet: Sheet,
    // the number of the yard, on the staffs that it gives out
    yard: u8,
    book: Book,
    // why it is out of service; none while it is in service
    unfit: Option<Unfit>,
}

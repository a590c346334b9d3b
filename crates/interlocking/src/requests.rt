// Requests of the panels, which wait in a line until they are served.
// Who lends the line reads each of the five clauses by its name, as of the line itself: one relation would have to be opened first.
ghost use Rattle.std.specs.Prelude.{◌≡◌, ◌<◌, [], ◌∷◌, ◌++◌, length, is_some};
ghost use Rattle.line.specs.Lines.{waiting, room_of, served, first_after_take};
ghost use Rattle.interlocking.specs.Requests.{requested, slots_after_request, slots_with_last, HasSpace, slots_after_serve, first_after_serve};
ghost use Rattle.interlocking.specs.Calls.{serve_at};

use crate::Interlocking;
use crate::request::Request;
use book::refusal::Refusal;
use line::Line;
use trackside::Work;

// The panels are numbered from 0 to this.
const LAST_PANEL: u8 = 3;

// A request joins the line. Whether there is such a route is asked when it is served.
pub fn request(line: &mut Line<'_, Request>, panel: u8, route: u8) -> Result<(), Refusal>
    ensures waits { (result, waiting line.new) ≡ requested (room_of line.old) (waiting line.old) panel route }
    ensures room { room_of line.new ≡ room_of line.old }
    ensures slots { line.new.slots.now ≡ slots_after_request line.old panel route }
    ensures first { line.new.first ≡ line.old.first }
    ensures memory { line.new.slots.ghost_name ≡ line.old.slots.ghost_name }
{
    if panel > LAST_PANEL {
        return Err(Refusal::UnknownPanel);
    }
    line.put(Request { panel, route })?;
    Ok(())
}

// Takes the oldest request, which leaves room for one.
fn take_oldest(line: &mut Line<'_, Request>) -> Option<Request>
    ensures waits { (result, waiting line.new) ≡ served (waiting line.old) }
    ensures space { HasSpace (is_some result) line.new }
    ensures room { room_of line.new ≡ room_of line.old }
    ensures slots { line.new.slots.now ≡ line.old.slots.now }
    ensures first { line.new.first ≡ first_after_take line.old }
    ensures memory { line.new.slots.ghost_name ≡ line.old.slots.ghost_name }
{
    line.take()
}

// A request goes to the back of a line that has room for it.
fn put_back(line: &mut Line<'_, Request>, request: Request)
    requires { length (waiting line.old) < room_of line.old }
    ensures waits { waiting line.new ≡ waiting line.old ++ request ∷ [] }
    ensures room { room_of line.new ≡ room_of line.old }
    ensures slots { line.new.slots.now ≡ slots_with_last line.old request }
    ensures first { line.new.first ≡ line.old.first }
    ensures memory { line.new.slots.ghost_name ≡ line.old.slots.ghost_name }
{
    let _ = line.put(request);
}

impl<T: Work> Interlocking<T> {
    // Takes the oldest request and reserves its route. Refused in service, the request goes to the back of the line.
    pub fn serve(&mut self, line: &mut Line<'_, Request>) -> Result<usize, Refusal>
        ensures waits { ((result, self.new), waiting line.new) ≡ serve_at self.old (waiting line.old) }
        ensures room { room_of line.new ≡ room_of line.old }
        ensures slots { line.new.slots.now ≡ slots_after_serve self.old line.old }
        ensures first { line.new.first ≡ first_after_serve self.old line.old }
        ensures memory { line.new.slots.ghost_name ≡ line.old.slots.ghost_name }
    {
        self.in_service()?;
        let request = take_oldest(line).ok_or(Refusal::LineEmpty)?;
        let answer = self.reserve(request.route);
        if answer.is_err() {
            put_back(line, request);
        }
        answer
    }
}

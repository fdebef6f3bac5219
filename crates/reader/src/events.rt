// What stands at a place of lent records.
ghost use Rattle.std.specs.Prelude.{◌≡◌};
ghost use Rattle.records.specs.Records.{meant};
ghost use Rattle.reader.specs.Events.{event_of, event_at, place_after};

use crate::Event;
use ground::has_room;
use records::Record;

#[tactic(auto, unfolding(crate::specs::Events::event_of, records::specs::Records::meant))]
fn event_of(met: Record) -> Event
    ensures { result ≡ event_of (meant met) }
{
    match met {
        Record::Call(call) => Event::Call(call),
        Record::Reply(reply) => Event::Reply(reply),
        Record::Other => Event::Other,
    }
}

// This and the next make the same test: thin functions over a slice and a place.
#[tactic(auto, unfolding(crate::specs::Events::event_at))]
pub fn event_at(lent: &[u8], at: usize) -> Event
    ensures { result ≡ event_at at lent.now }
{
    if has_room(lent.len(), at, 8) {
        event_of(Record::from(records::record_at(lent, at)))
    } else if lent.len() <= at {
        Event::End
    } else {
        Event::Spare
    }
}

// At the end the place stays, and the next event is the end again.
#[tactic(auto, unfolding(crate::specs::Events::place_after))]
pub fn place_after(lent: &[u8], at: usize) -> usize
    ensures { result ≡ place_after at lent.now }
{
    if has_room(lent.len(), at, 8) {
        at + 8
    } else {
        at
    }
}

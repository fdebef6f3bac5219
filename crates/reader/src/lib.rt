// A reader over lent records: a struct that holds them and a place, and gives the next event.
#![tactic(auto)]

mod events;

ghost use Rattle.std.specs.Prelude.{◌≡◌};
ghost use Rattle.reader.specs.Events.{event_at, place_after, event_number};

pub use events::{event_at, place_after};
use session::{CallRecord, ReplyRecord};

// A call, a reply, a record that is neither, the end, or fewer than eight bytes (answer 14). The last two are events, so that a reader always gives one.
#[derive(Clone, Copy)]
pub enum Event {
    Call(CallRecord),
    Reply(ReplyRecord),
    Other,
    End,
    Spare,
}

// The slice and a cursor, with free functions over them: a rule of the project.
#[derive(Clone, Copy)]
pub struct Reader<'a> {
    pub records: &'a [u8],
    pub at: usize,
}

pub fn new<'a>(records: &'a [u8]) -> Reader<'a>
    ensures { (result.records ≡ records.entry) × (result.at ≡ 0) }
{
    Reader { records, at: 0 }
}

// The next event.
pub fn next<'a>(r: Reader<'a>) -> Event
    ensures { result ≡ event_at r.entry.at r.entry.records.now }
{
    event_at(r.records, r.at)
}

// The reader after it.
pub fn rest<'a>(r: Reader<'a>) -> Reader<'a>
    ensures { (result.records ≡ r.entry.records) × (result.at ≡ place_after r.entry.at r.entry.records.now) }
{
    Reader {
        records: r.records,
        at: place_after(r.records, r.at),
    }
}

// The first event of records, for callers that hold no reader.
pub fn first(records: &[u8]) -> Event
    ensures { result ≡ event_at 0 records.now }
{
    next(new(records))
}

// The n-th event, counted from 0: the first after n records.
pub fn event_number(records: &[u8], n: usize) -> Event
    ensures { result ≡ event_number n records.now }
{
    let whole = records.len() / 8;
    if n < whole {
        first(&records[8 * n..])
    } else {
        first(&records[8 * whole..])
    }
}

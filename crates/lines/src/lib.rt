// The lines of text that outcomes and the driver's fields are printed as. A line goes into a lent text from a place on, and the place after it is
// returned. Where the text has less than `LINE_ROOM` bytes from that place on, nothing is put.
// There is no `Display`: std's clauses do not say which bytes a lent slice has after a `write!`.
#![tactic(auto)]

mod cursor;

ghost use Rattle.std.specs.Prelude.{◌≡◌, ◌+◌, ◌≤◌};
ghost use Rattle.session.specs.Bus.{number_of};
ghost use Rattle.lines.specs.Lines.{transfer_line, answer_line, given_line, fields_line, outcome_line, flag, value_of};
ghost use Rattle.lines.specs.Cursor.{HasRoom, Puts};
ghost use Rattle.lines.specs.Put.{line_room, PutLine};

use crate::cursor::Cursor;
use ground::has_room;
use session::{Answer, Driver, Given, Outcome, Transfer};

// The bytes of room that a line is given: no line has more.
pub const LINE_ROOM: usize = 48;

// What an answer shows: its number and its value.
fn shown(x: Answer) -> (u8, u32)
    ensures number { result.0 ≡ number_of x }
    ensures value { result.1 ≡ value_of x }
{
    match x {
        Answer::Done(value) => (0, value),
        Answer::False => (1, 0),
        Answer::InvalidDevice(identity) => (2, identity.into()),
        Answer::BusError(code) => (3, code.into()),
        Answer::Timeout => (4, 0),
        Answer::InvalidAddress(address) => (5, address.into()),
        Answer::InvalidArgument => (6, 0),
        Answer::WouldBlock => (7, 0),
        Answer::Panic(place) => (8, place.into()),
        Answer::NotUp => (9, 0),
        Answer::CallWaits => (10, 0),
        Answer::NoCallWaits => (11, 0),
        Answer::StrayByte => (12, 0),
        Answer::IllFormedRecord => (13, 0),
        Answer::SpareBytes => (14, 0),
        Answer::IllFormedSession => (15, 0),
    }
}

pub fn number_of(x: Answer) -> u8
    ensures { result ≡ number_of x }
{
    shown(x).0
}

pub fn value_of(x: Answer) -> u32
    ensures { result ≡ value_of x }
{
    shown(x).1
}

fn flag_of(up: bool) -> u8
    ensures { result ≡ flag up }
{
    up as u8
}

impl<'a> Cursor<'a> {
    fn transfer(&mut self, t: Transfer)
        requires { HasRoom self.old line_room }
        ensures puts { Puts self.old (transfer_line t) self.new }
        ensures upper_bound { self.new.at ≤ self.old.at + line_room }
    {
        self.byte(b'T');
        self.byte(b' ');
        self.pair(t.address);
        self.byte(b' ');
        self.pairs(t.written, t.count);
        self.number(t.reads as u32);
        self.byte(b'\n');
    }

    fn answer(&mut self, number: u8, value: u32, transfers: u32)
        requires { HasRoom self.old line_room }
        ensures puts { Puts self.old (answer_line number value transfers) self.new }
        ensures upper_bound { self.new.at ≤ self.old.at + line_room }
    {
        self.byte(b'A');
        self.number(number as u32);
        self.number(value);
        self.number(transfers);
        self.byte(b'\n');
    }

    // Crate layout has the same match: there it makes bytes, here text.
    #[tactic(auto, unfolding(crate::specs::Lines::given_line))]
    fn given(&mut self, given: Given)
        requires { HasRoom self.old line_room }
        ensures puts { Puts self.old (given_line given) self.new }
        ensures upper_bound { self.new.at ≤ self.old.at + line_room }
    {
        match given {
            Given::Sent(t) => self.transfer(t),
            Given::Answered(x, transfers) => self.answer(number_of(x), value_of(x), transfers),
            Given::Refused(x) => self.answer(number_of(x), 0, 0),
            Given::IllFormed => self.answer(number_of(Answer::IllFormedSession), 0, 0),
        }
    }

    fn fields(&mut self, d: Driver)
        requires { HasRoom self.old line_room }
        ensures puts { Puts self.old (fields_line d) self.new }
        ensures upper_bound { self.new.at ≤ self.old.at + line_room }
    {
        self.byte(b'F');
        self.number(flag_of(d.up) as u32);
        self.number(d.address as u32);
        self.number(d.stop as u32);
        self.number(d.budget);
        self.byte(b'\n');
    }
}

// What a record gave. This line and the next test for room each: a cursor from one test would be lent by an `Option`, in a longer contract.
pub fn outcome_line(text: &mut [u8], at: usize, o: Outcome) -> usize
    ensures { PutLine text.old at (outcome_line o) text.new result }
{
    if !has_room(text.len(), at, LINE_ROOM) {
        return at;
    }
    let mut line = Cursor { text, at };
    line.given(o.given);
    line.at
}

// The driver's fields.
pub fn fields_line(text: &mut [u8], at: usize, d: Driver) -> usize
    ensures { PutLine text.old at (fields_line d) text.new result }
{
    if !has_room(text.len(), at, LINE_ROOM) {
        return at;
    }
    let mut line = Cursor { text, at };
    line.fields(d);
    line.at
}

// The lines of a block of records, as one text.
#![tactic(auto)]

ghost use Rattle.std.specs.Prelude.{◌≡◌, ℕ, List, [], ◌+◌, ◌≤◌, length};
ghost use Rattle.session.specs.declared.Outcome.{Outcome};
ghost use Rattle.lines.specs.Lines.{outcome_line, fields_line};
ghost use Rattle.lines.specs.Put.{line_room, PutLine};
ghost use Rattle.blocks.specs.Blocks.{OneMore, text_room, Printed, Prints};
ghost use Rattle.blocks.specs.Input.{spare_line, after_lines};

use lines::LINE_ROOM;
use session::{Outcome, Rules, Session};

// What is printed of a record, and of spare bytes, which are no record, at the end of the input.
pub trait Show {
    ghost line_of: { Outcome → List ℕ };

    ghost spare: { List ℕ };

    // The line of a record goes into the text from `at` on; the place after it is returned. The text is lent, since memory is fixed and lines
    // follow one another in it.
    fn put_line(text: &mut [u8], at: usize, o: Outcome) -> usize
        ensures { PutLine text.old at (line_of o) text.new result };

    // What is printed for spare bytes.
    fn spare_text() -> &'static [u8]
        ensures { result.now ≡ spare };
}

// What a record gave; for spare bytes answer 14.
#[derive(Clone, Copy)]
pub struct Outcomes;

// The driver's fields after a record; spare bytes leave them.
#[derive(Clone, Copy)]
pub struct Fields;

impl Show for Outcomes {
    ghost line_of = { outcome_line };

    ghost spare = { spare_line };

    fn put_line(text: &mut [u8], at: usize, o: Outcome) -> usize {
        lines::outcome_line(text, at, o)
    }

    #[tactic(auto, using(crate::proofs::After::spare_is))]
    fn spare_text() -> &'static [u8] {
        b"A 14 0 0\n"
    }
}

impl Show for Fields {
    ghost line_of = { λ o. fields_line o.session.driver };

    ghost spare = { [] };

    fn put_line(text: &mut [u8], at: usize, o: Outcome) -> usize {
        lines::fields_line(text, at, o.session.driver)
    }

    fn spare_text() -> &'static [u8] {
        b""
    }
}

// The session after a block, and how many bytes of text it made: a count, since the text is the caller's.
#[derive(Clone, Copy)]
pub struct Printout {
    pub session: Session,
    pub count: usize,
}

// One record more: its line goes into the text.
#[tactic(auto, using(crate::proofs::Texts::kept_session))]
fn print_record<S: Show>(p: Printout, record: [u8; 8], out: &mut [u8]) -> Printout
    requires { p.count + line_room ≤ length out.old }
    ensures { OneMore S.line_of p «record» out.old out.new result }
{
    let o = records::step(Rules::Current, p.session, record);
    Printout {
        session: o.session,
        count: S::put_line(out, p.count, o),
    }
}

fn print_records<S: Show>(s: Session, bytes: &[u8], out: &mut [u8]) -> Printout
    requires { text_room (length bytes.now) ≤ length out.old }
    ensures { Printed S.line_of s bytes.now out.old out.new result }
{
    let (records, _) = bytes.as_chunks();
    let mut p = Printout {
        session: s,
        count: 0,
    };
    for record in records {
        p = print_record::<S>(p, *record, out);
    }
    p
}

// The lines of the whole records of a block go to the start of the text. Where that has not the room of a line for each of them, nothing is
// done: the test is part of what is promised of every text.
#[tactic(auto, using(crate::proofs::Texts::printed_fits))]
pub fn print<S: Show>(s: Session, bytes: &[u8], out: &mut [u8]) -> Printout
    ensures { Prints S.line_of s bytes.now out.old out.new result }
{
    if out.len() / LINE_ROOM < bytes.len() / 8 {
        return Printout {
            session: s,
            count: 0,
        };
    }
    print_records::<S>(s, bytes, out)
}

// What comes after the lines of an input whose last bytes these are.
#[tactic(auto, using(crate::proofs::After::whole_after, crate::proofs::After::spare_after))]
pub fn after_lines<S: Show>(bytes: &[u8]) -> &'static [u8]
    ensures { result.now ≡ after_lines S.spare bytes.now }
{
    if bytes.len() % 8 == 0 {
        return b"";
    }
    S::spare_text()
}

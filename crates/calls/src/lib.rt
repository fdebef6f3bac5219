// What is known of each call: its instructions, in the order of lib.rs, as constant tables, one for each call or section of one, and its limits.
// A sequence that several calls share stands once.
#![tactic(auto)]

mod bring_up;
mod rules;
mod sections;
mod tables;
mod tuning;

ghost use Rattle.std.specs.Prelude.{◌≡◌, ◌&&◌, leb};
ghost use Rattle.session.specs.Calls.{top_code, ceiling_of};
ghost use Rattle.calls.specs.Calls.{facts_of, instruction_at};

use rules::{dss_term_of, top_code, tries_of};
use sections::looked_up;
use session::{Instruction, Rules};

// How many instructions a call has, the greatest A and B that it takes, and the most transfers that it makes, each once.
#[derive(Clone, Copy)]
pub struct Facts {
    pub steps: u8,
    pub greatest_a: u32,
    pub greatest_b: u16,
    pub ceiling: u32,
}

// These by code, in this order. 0 is no call's.
const FACTS: [(u8, u32, u16, u32); 17] = [
    (0, 0, 0, 0),
    (156, 255, 0, 85688),
    (1, 0, 0, 1),
    (1, 255, 0, 1),
    (10, 4294967295, 0, 10),
    (6, 0, 0, 6),
    (4, 0, 0, 4),
    (4, 0, 0, 10003),
    (13, 0, 0, 20011),
    (7, 4294967295, 0, 7),
    (2, 65535, 65535, 2),
    (2, 0, 0, 2),
    (5, 3, 1, 5),
    (2, 0, 0, 2),
    (1, 4294967295, 0, 1),
    (6, 0, 0, 6),
    (1, 0, 0, 1),
];

// A code that is no call's has no instructions, and takes nothing.
#[tactic(auto, unfolding(crate::specs::Calls::facts_of))]
pub fn facts_of(code: u8) -> Facts
    ensures { result ≡ facts_of code }
{
    let (steps, greatest_a, greatest_b, ceiling) = looked_up(&FACTS, code, (0, 0, 0, 0));
    Facts {
        steps,
        greatest_a,
        greatest_b,
        ceiling,
    }
}

// Do the rules have a call with this code?
pub fn is_call(rules: Rules, code: u8) -> bool
    ensures { result ≡ leb 1 code && leb code (top_code rules) }
{
    1 <= code && code <= top_code(rules)
}

// The most transfers that a call makes, by the rules.
#[tactic(auto, using(crate::proofs::Programs::ceiling_is, crate::proofs::Programs::ceiling_fits), unfolding(crate::specs::Calls::facts_of))]
pub fn ceiling_of(rules: Rules, code: u8) -> u32
    ensures { result ≡ ceiling_of rules code }
{
    tries_of(rules) * facts_of(code).ceiling
}

// The instruction of the call with this code at a step; past the call's end, or for a code that is no call's, there is none.
// A match and no table of functions: each call's own contract stands at its arm.
#[tactic(auto, unfolding(crate::specs::Calls::instruction_at, crate::specs::Calls::step_of, session::specs::Calls::program_of, session::specs::Calls::programs))]
pub fn instruction_at(rules: Rules, code: u8, step: u8) -> Instruction
    ensures { result ≡ instruction_at rules code step }
{
    match code {
        1 => bring_up::with_address(dss_term_of(rules), step),
        2 => tables::who_am_i(step),
        3 => tables::set_address(step),
        4 => tables::start_continuous(step),
        5 => tables::stop_continuous(step),
        6 => tables::read_range_mm(step),
        7 => tables::read_range_continuous(step),
        8 => tables::read_range_single(step),
        9 => tables::set_budget(dss_term_of(rules), step),
        10 => tables::set_thresholds(step),
        11 => tables::get_thresholds(step),
        12 => tables::set_gpio_config(step),
        13 => tables::clear_interrupt_status(step),
        14 => tables::set_signal_rate_limit(step),
        15 => tables::get_budget(step),
        16 => tables::get_signal_rate_limit(step),
        _ => Instruction::Nowhere,
    }
}

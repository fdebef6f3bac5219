// What the calls take from the rules (SCOPE 2.6). An arm for each, also where they say the same: the first rules' never changes.
ghost use Rattle.std.specs.Prelude.{◌≡◌};
ghost use Rattle.session.specs.Rules.{dss_term_of, tries_of};
ghost use Rattle.session.specs.Calls.{top_code};

use crate::FACTS;
use budget::DssTerm;
use session::Rules;

// The last code of a call.
#[tactic(auto, unfolding(session::specs::Calls::top_code, session::specs::Calls::programs))]
pub(crate) fn top_code(rules: Rules) -> u8
    ensures { result ≡ top_code rules }
{
    match rules {
        Rules::First => 15,
        Rules::Current => (FACTS.len() - 1) as u8,
    }
}

// How often the DSS overhead is counted where a budget is set.
pub(crate) fn dss_term_of(rules: Rules) -> DssTerm
    ensures { result ≡ dss_term_of rules }
{
    match rules {
        Rules::First => DssTerm::Once,
        Rules::Current => DssTerm::Once,
    }
}

// How often a transfer is made at most.
pub(crate) fn tries_of(rules: Rules) -> u32
    ensures { result ≡ tries_of rules }
{
    match rules {
        Rules::First => 1,
        Rules::Current => 1,
    }
}

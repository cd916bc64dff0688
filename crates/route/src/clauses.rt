// The chains of a plan's rules and literals as numbers, decoded once. By record index: entry 0 is the first rule; the entry of a rule is the next
// rule, and FIELD times its first literal; the entry of a literal is the next literal of its rule, and FIELD times its code; the rest is 0.
// A code is twice the literal's variable, and 1 more where it is wanted. The variable of a named belt is twice its place among the named belts;
// that of a mode is twice its number, and 1 more. What a code says comes out of it as a Coded, in which a belt is a place and a mode a ModeId.
ghost use Rattle.std.specs.Prelude.{◌≡◌, ◌/◌, ◌≤◌, ◌<◌, length, replicate, unwrap_or};
ghost use Rattle.plan.specs.Bounds.{field_limit};
ghost use Rattle.plan.specs.Records.{records};
ghost use Rattle.plan.specs.Reading.{IsRule, first_literal, literal_chain};
ghost use Rattle.route.specs.Values.{named_places, with_bit, code_in, coded_in, entry_of, clauses_in};
ghost use Rattle.route.specs.Inner.{Codable, stores};

use plan::accepted::AcceptedPlan;
use plan::bounds::{FIELD_LIMIT, MAX_RECORDS};
use plan::read::{Literal, ModeId, RuleId};

// Record indices are below it.
pub const FIELD: u32 = FIELD_LIMIT as u32;

// A literal as its code has it: the place of its belt among the named belts, or its mode, and whether it is wanted.
#[derive(Clone, Copy)]
pub enum Coded {
    Belt(usize, bool),
    Mode(ModeId, bool),
}

// Twice the number, and 1 more where the bit is set.
fn with_bit(number: u32, bit: bool) -> u32
    requires { number < 128 }
    ensures { result ≡ with_bit number bit }
{
    2 * number + u32::from(bit)
}

// The code of a literal. `places` are those of the named belts (AcceptedPlan::named_places).
fn code_of(places: &[u8; MAX_RECORDS], literal: Literal) -> u32
    requires { Codable places.now literal }
    ensures { result ≡ code_in places.now literal }
{
    match literal {
        Literal::OfBelt(belt, wanted) => {
            let place = u32::from(places[usize::from(belt.0)]) - 1;
            with_bit(with_bit(place, false), wanted)
        }
        Literal::OfMode(mode, wanted) => with_bit(with_bit(u32::from(mode.0), true), wanted),
    }
}

// What the code in the entry of a literal says.
pub fn coded_of(entry: u32) -> Coded
    ensures { result ≡ coded_in (entry / field_limit) }
{
    let code = entry / FIELD;
    let wanted = code % 2 == 1;
    let variable = code / 2;
    let number = variable / 2;
    if variable % 2 == 1 {
        Coded::Mode(ModeId(number as u16), wanted)
    } else {
        Coded::Belt(number as usize, wanted)
    }
}

// The number that ends a chain, or that of the next record on it.
fn link(next: Option<u16>) -> u32
    ensures { result ≡ unwrap_or next 0 }
{
    next.map_or(0, u32::from)
}

// Stores the entries of a rule's literals in the array, which has one for each record.
fn put_literals(plan: AcceptedPlan, places: &[u8; MAX_RECORDS], clauses: &mut [u32], rule: RuleId)
    requires { (places.now ≡ named_places plan.bytes.now)
        × IsRule plan.bytes.now rule.0
        × (records plan.bytes.now ≤ length clauses.old) }
    ensures { clauses.new
        ≡ stores (entry_of plan.entry.bytes.now) clauses.old (literal_chain plan.entry.bytes.now (first_literal plan.entry.bytes.now rule.0)) }
{
    let mut chain = plan.first_literal(rule);
    while let Some(literal) = chain {
        let code = code_of(places, plan.literal(literal));
        chain = plan.next_literal(literal);
        clauses[usize::from(literal.0)] = link(chain.map(|l| l.0)) + FIELD * code;
    }
}

// Fills the array with the clauses of an accepted plan. It is all 0 before, and has a place for each record or more. `places` are those of the named
// belts (AcceptedPlan::named_places). Each literal is read once.
pub fn decode(plan: AcceptedPlan, places: &[u8; MAX_RECORDS], clauses: &mut [u32])
    requires { (places.now ≡ named_places plan.bytes.now)
        × (clauses.old ≡ replicate (length clauses.old) 0)
        × (records plan.bytes.now ≤ length clauses.old) }
    ensures { clauses.new ≡ clauses_in (length clauses.old) plan.entry.bytes.now }
{
    let mut chain = plan.first_rule();
    clauses[0] = link(chain.map(|r| r.0));
    while let Some(rule) = chain {
        chain = plan.next_rule(rule);
        let literal = plan.first_literal(rule);
        clauses[usize::from(rule.0)] = link(chain.map(|r| r.0))
            + FIELD * link(literal.map(|l| l.0));
        put_literals(plan, places, clauses, rule);
    }
}

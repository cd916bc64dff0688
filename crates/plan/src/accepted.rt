// The bytes of an accepted plan, and its readers. A chain is read as an iterator over the ids of its records.
ghost use Rattle.std.specs.Prelude.{◌≡◌, ℕ, List, ◌<◌, ◌≤◌, eqb, IfSome};
ghost use Rattle.std.specs.Option.{ForSome};
ghost use Rattle.std.specs.Iterator.{YieldsFirstBy, item_count};
ghost use Rattle.plan.specs.Bounds.{belt_cost_limit};
ghost use Rattle.plan.specs.Records.{field, records, IsKind, chain};
ghost use Rattle.plan.specs.Lists.{mem};
ghost use Rattle.plan.specs.Plan.{plan_of, belt_at, literal_at, indices_of};
ghost use Rattle.plan.specs.Reading.{Accepted, IsBelt, IsRule, IsLiteral, first_belt, next_belt, first_rule, next_rule, first_literal, next_literal};
ghost use Rattle.plan.specs.Reading.{belt_chain, rule_chain, literal_chain, chain_link, belt_link, rule_link, literal_link};

use crate::bounds::FIELD_LIMIT;
use crate::read::{BeltId, Chained, Literal, LiteralId, ModeId, RuleId};
use crate::record;
use crate::record::BELT;
use std::marker::Model;

// Bytes that the check of plans has accepted (check::check): no line of the refusal table is broken.
#[derive(Clone, Copy)]
pub struct AcceptedPlan<'a> {
    pub bytes: &'a [u8],
    pub ghost accepted: { Accepted bytes.now },
}

// What is left of a chain of an accepted plan. A contract sees the indices of its records.
#[derive(Drop)]
pub struct Chain<'a, T: Chained> {
    plan: AcceptedPlan<'a>,
    next: Option<T>,
}

impl<'a, T: Chained> Model for Chain<'a, T> {
    ghost Value = { List ℕ };

    ghost view = { λ c. chain c.plan.bytes.now (chain_link T.number c.next) };

    ghost invariant = { λ c. ForSome c.next (λ r. IsKind c.plan.bytes.now T.kind (T.number r)) };
}

impl<'a, T: Chained> Iterator for Chain<'a, T> {
    type Item = T;

    ghost next_gives = { YieldsFirstBy T.number (λ left. left) };

    ghost remaining = { item_count (λ left. left) };

    fn next(&mut self) -> Option<T> {
        let id = self.next?;
        self.next = self.plan.after(id);
        Some(id)
    }
}

impl<'a> AcceptedPlan<'a> {
    // N, the count of records.
    pub fn records(self) -> usize
        ensures { result ≡ records self.entry.bytes.now }
    {
        record::records(self.bytes)
    }

    // Field f of record i.
    fn at(self, i: usize, f: usize) -> u16
        requires record { i < records self.bytes.now }
        requires field { f < 6 }
        ensures { result ≡ field self.entry.bytes.now i f }
    {
        record::field(self.bytes, i, f)
    }

    // The count of junctions.
    pub fn junctions(self) -> usize
        ensures { result ≡ (plan_of self.entry.bytes.now).junctions }
    {
        usize::from(self.at(0, 1))
    }

    // The count of modes.
    pub fn modes(self) -> usize
        ensures { result ≡ (plan_of self.entry.bytes.now).modes }
    {
        usize::from(self.at(0, 2))
    }

    // The record that field f of record i leads to, or None if it is 0.
    fn linked<T: Chained>(self, i: usize, f: usize) -> Option<T>
        requires record { i < records self.bytes.now }
        requires field { f < 6 }
        requires leads { (field self.bytes.now i f ≡ 0 → ⊥) → IsKind self.bytes.now T.kind (field self.bytes.now i f) }
        ensures link { chain_link T.number result ≡ field self.entry.bytes.now i f }
        ensures kind { IfSome result (λ r. IsKind self.entry.bytes.now T.kind (T.number r)) }
    {
        match self.at(i, f) {
            0 => None,
            index => Some(T::at(index)),
        }
    }

    // The record after this one on its chain.
    fn after<T: Chained>(self, id: T) -> Option<T>
        requires { IsKind self.bytes.now T.kind (T.number id) }
        ensures link { chain_link T.number result ≡ field self.entry.bytes.now (T.number id) 1 }
        ensures kind { IfSome result (λ r. IsKind self.entry.bytes.now T.kind (T.number r)) }
    {
        self.linked(usize::from(id.index()), 1)
    }

    // The belts leaving junction j.
    pub fn belts_from(self, j: usize) -> Chain<'a, BeltId>
        requires low { 1 ≤ j }
        requires high { j ≤ (plan_of self.bytes.now).junctions }
        ensures { result ≡ belt_chain self.entry.bytes.now (first_belt self.entry.bytes.now j) }
    {
        Chain {
            plan: self,
            next: self.first_belt(j),
        }
    }

    // The first belt leaving junction j.
    pub fn first_belt(self, j: usize) -> Option<BeltId>
        requires low { 1 ≤ j }
        requires high { j ≤ (plan_of self.bytes.now).junctions }
        ensures link { belt_link result ≡ first_belt self.entry.bytes.now j }
        ensures belt { IfSome result (λ e. IsBelt self.entry.bytes.now e.0) }
    {
        self.linked(j, 1)
    }

    // The next belt leaving the same junction.
    pub fn next_belt(self, belt: BeltId) -> Option<BeltId>
        requires { IsBelt self.bytes.now belt.0 }
        ensures link { belt_link result ≡ next_belt self.entry.bytes.now belt.0 }
        ensures belt { IfSome result (λ e. IsBelt self.entry.bytes.now e.0) }
    {
        self.after(belt)
    }

    // Whether this is the number of a belt.
    pub fn is_belt(self, belt: BeltId) -> bool
        ensures { result ≡ mem belt.0 (indices_of (plan_of self.entry.bytes.now).belts) }
    {
        let e = usize::from(belt.0);
        e < self.records() && self.at(e, 0) == BELT
    }

    // Whether a belt leaves junction j: it stands on the junction's chain.
    pub fn leaves(self, belt: BeltId, j: usize) -> bool
        requires belt { IsBelt self.bytes.now belt.0 }
        requires low { 1 ≤ j }
        requires high { j ≤ (plan_of self.bytes.now).junctions }
        ensures { result ≡ eqb (belt_at self.entry.bytes.now belt.0).leaves j }
    {
        self.belts_from(j).any(|other| belt == other)
    }

    // The junction that a belt leads to.
    pub fn leads_to(self, belt: BeltId) -> usize
        requires { IsBelt self.bytes.now belt.0 }
        ensures { result ≡ (belt_at self.entry.bytes.now belt.0).leads }
    {
        usize::from(self.at(usize::from(belt.0), 2))
    }

    // The cost of a belt. It stands in two fields, of which field 4 is the high one.
    pub fn cost(self, belt: BeltId) -> u64
        requires { IsBelt self.bytes.now belt.0 }
        ensures cost { result ≡ (belt_at self.entry.bytes.now belt.0).cost }
        ensures below { result < belt_cost_limit }
    {
        let e = usize::from(belt.0);
        let high = u64::from(self.at(e, 4));
        let low = u64::from(self.at(e, 3));
        high * FIELD_LIMIT as u64 + low
    }

    // The rules.
    pub fn rules(self) -> Chain<'a, RuleId>
        ensures { result ≡ rule_chain self.entry.bytes.now (first_rule self.entry.bytes.now) }
    {
        Chain {
            plan: self,
            next: self.first_rule(),
        }
    }

    // The first rule.
    pub fn first_rule(self) -> Option<RuleId>
        ensures link { rule_link result ≡ first_rule self.entry.bytes.now }
        ensures rule { IfSome result (λ r. IsRule self.entry.bytes.now r.0) }
    {
        self.linked(0, 3)
    }

    // The next rule.
    pub fn next_rule(self, rule: RuleId) -> Option<RuleId>
        requires { IsRule self.bytes.now rule.0 }
        ensures link { rule_link result ≡ next_rule self.entry.bytes.now rule.0 }
        ensures rule { IfSome result (λ r. IsRule self.entry.bytes.now r.0) }
    {
        self.after(rule)
    }

    // The first literal of a rule.
    pub fn first_literal(self, rule: RuleId) -> Option<LiteralId>
        requires { IsRule self.bytes.now rule.0 }
        ensures link { literal_link result ≡ first_literal self.entry.bytes.now rule.0 }
        ensures literal { IfSome result (λ l. IsLiteral self.entry.bytes.now l.0) }
    {
        self.linked(usize::from(rule.0), 2)
    }

    // The next literal of the same rule.
    pub fn next_literal(self, literal: LiteralId) -> Option<LiteralId>
        requires { IsLiteral self.bytes.now literal.0 }
        ensures link { literal_link result ≡ next_literal self.entry.bytes.now literal.0 }
        ensures literal { IfSome result (λ l. IsLiteral self.entry.bytes.now l.0) }
    {
        self.after(literal)
    }

    // The literals of a rule.
    pub fn literals(self, rule: RuleId) -> Chain<'a, LiteralId>
        requires { IsRule self.bytes.now rule.0 }
        ensures { result ≡ literal_chain self.entry.bytes.now (first_literal self.entry.bytes.now rule.0) }
    {
        Chain {
            plan: self,
            next: self.first_literal(rule),
        }
    }

    // What a literal says.
    pub fn literal(self, literal: LiteralId) -> Literal
        requires { IsLiteral self.bytes.now literal.0 }
        ensures { result ≡ literal_at self.entry.bytes.now literal.0 }
    {
        let l = usize::from(literal.0);
        let wanted = self.at(l, 2) == 1;
        let number = self.at(l, 4);
        if self.at(l, 3) == 0 {
            Literal::OfBelt(BeltId(number), wanted)
        } else {
            Literal::OfMode(ModeId(number), wanted)
        }
    }
}

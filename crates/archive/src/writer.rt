// Writes the records of the archive form of an accepted plan, sort by sort, once its belts are numbered anew.
ghost use Rattle.std.specs.Prelude.{◌≡◌, ◌++◌, ◌+◌, ◌*◌, ◌<◌, ◌≤◌, length, drop};
ghost use Rattle.plan.specs.Bounds.{record_bytes, max_records};
ghost use Rattle.plan.specs.Records.{records, placed};
ghost use Rattle.plan.specs.Plan.{plan_of, rule_at, literal_at};
ghost use Rattle.plan.specs.Reading.{IsRule, IsLiteral, next_rule, next_literal};
ghost use Rattle.archive.specs.Content.{content_of};
ghost use Rattle.archive.specs.Form.{bytes_of, record_bytes_of, chain_start, behind, legs_start, rules_start, header_of, archive_of};
ghost use Rattle.archive.specs.Form.{junction_records, leg_records, literal_record, literal_records, records_of_rule, rule_records};
ghost use Rattle.archive.specs.Inner.{by_place, rule_in, literals_in, rules_in};

use crate::indices::Renumbered;
use plan::accepted::AcceptedPlan;
use plan::read::{BeltId, Literal, LiteralId, RuleId};
use plan::record;
use plan::record::{BELT, HEADER, JUNCTION, LITERAL, RULE};

impl<'a> Renumbered<'a> {
    // Record 0, where the first rule, if there is one, stands behind the belts.
    fn put_header(&self, out: &mut [u8])
        requires { record_bytes * records self.now.plan.bytes.now ≤ length out.old }
        ensures { out.new ≡ placed out.old 0 (record_bytes_of (header_of (content_of (plan_of self.now.plan.bytes.now)))) }
    {
        let p = self.plan.bytes;
        let rules_at = self.rules_at;
        let first = self.plan.first_rule().map_or(0, |_| rules_at);
        record::put_record(
            out,
            0,
            [
                HEADER,
                record::field(p, 0, 1),
                record::field(p, 0, 2),
                first,
                record::field(p, 0, 4),
                0,
            ],
        );
    }

    // The junctions, from record 1 on.
    fn put_junctions(&self, out: &mut [u8])
        requires { record_bytes * records self.now.plan.bytes.now ≤ length out.old }
        ensures { out.new ≡ placed out.old record_bytes (bytes_of (junction_records (content_of (plan_of self.now.plan.bytes.now)))) }
    {
        for j in 1..=self.plan.junctions() {
            let first = self.link(self.plan.first_belt(j));
            record::put_record(out, j, [JUNCTION, first, 0, 0, 0, 0]);
        }
    }

    // The belts in rising old index, behind the junctions.
    fn put_belts(&self, out: &mut [u8])
        requires { record_bytes * records self.now.plan.bytes.now ≤ length out.old }
        ensures { let c = content_of (plan_of self.now.plan.bytes.now) in
            out.new ≡ placed out.old (record_bytes * legs_start c) (bytes_of (leg_records (legs_start c) c.legs)) }
    {
        let p = self.plan.bytes;
        for e in self.plan.junctions() + 1..self.plan.records() {
            // It fits, as the check proves: see Renumbered::new.
            let belt = BeltId(e as u16);
            if self.plan.is_belt(belt) {
                let at = usize::from(self.new_index(belt));
                let next = self.link(self.plan.next_belt(belt));
                record::put_record(
                    out,
                    at,
                    [
                        BELT,
                        next,
                        record::field(p, e, 2),
                        record::field(p, e, 3),
                        record::field(p, e, 4),
                        0,
                    ],
                );
            }
        }
    }

    // A literal at record i, where the next literal of its rule, if there is one, stands behind it. A mode keeps its number.
    fn put_literal(&self, literal: LiteralId, i: u16, out: &mut [u8])
        requires literal { IsLiteral self.now.plan.bytes.now literal.0 }
        requires few { i < max_records }
        requires room { record_bytes * i + record_bytes ≤ length out.old }
        ensures { let b = self.now.plan.bytes.now in out.new ≡ placed out.old (record_bytes * i)
            (record_bytes_of (literal_record (legs_start (content_of (plan_of b))) (by_place b (literal_at b literal.0))
            (chain_start (i + 1) (literals_in b (next_literal b literal.0))))) }
    {
        let at = usize::from(i);
        let behind = i + 1;
        let next = self.plan.next_literal(literal).map_or(0, |_| behind);
        match self.plan.literal(literal) {
            Literal::OfBelt(belt, wanted) => {
                record::put_record(
                    out,
                    at,
                    [LITERAL, next, u16::from(wanted), 0, self.new_index(belt), 0],
                );
            }
            Literal::OfMode(mode, wanted) => {
                record::put_record(out, at, [LITERAL, next, u16::from(wanted), 1, mode.0, 0]);
            }
        }
    }

    // The literals of a rule, from record `at` on. Answers the index behind them.
    fn put_literals(&self, rule: RuleId, at: u16, out: &mut [u8]) -> u16
        requires rule { IsRule self.now.plan.bytes.now rule.0 }
        requires few { at + length (rule_at self.now.plan.bytes.now rule.0) ≤ max_records }
        requires room { record_bytes * (at + length (rule_at self.now.plan.bytes.now rule.0)) ≤ length out.old }
        ensures end { result ≡ at + length (rule_at self.now.plan.bytes.now rule.0) }
        ensures out { let b = self.now.plan.bytes.now in out.new ≡ placed out.old (record_bytes * at)
            (bytes_of (literal_records (legs_start (content_of (plan_of b))) at (rule_in b rule.0))) }
    {
        // Counted here, and not by zip, since the count is answered too.
        let mut i = at;
        for literal in self.plan.literals(rule) {
            self.put_literal(literal, i, out);
            i += 1;
        }
        i
    }

    // A rule at record `at`, and its literals behind it. Answers the index behind them, where the next rule stands, if there is one.
    fn put_rule(&self, rule: RuleId, at: u16, out: &mut [u8]) -> u16
        requires rule { IsRule self.now.plan.bytes.now rule.0 }
        requires few { behind at (rule_at self.now.plan.bytes.now rule.0) ≤ max_records }
        requires room { record_bytes * behind at (rule_at self.now.plan.bytes.now rule.0) ≤ length out.old }
        ensures end { result ≡ behind at (rule_at self.now.plan.bytes.now rule.0) }
        ensures out { let b = self.now.plan.bytes.now in out.new ≡ placed out.old (record_bytes * at)
            (bytes_of (records_of_rule (legs_start (content_of (plan_of b))) at (rule_in b rule.0)
            (chain_start (behind at (rule_at b rule.0)) (rules_in b (next_rule b rule.0))))) }
    {
        let behind = at + 1;
        let end = self.put_literals(rule, behind, out);
        let next = self.plan.next_rule(rule).map_or(0, |_| end);
        let first = self.plan.first_literal(rule).map_or(0, |_| behind);
        record::put_record(out, usize::from(at), [RULE, next, first, 0, 0, 0]);
        end
    }

    // The rules in chain order, each followed by its literals, behind the belts.
    fn put_rules(&self, out: &mut [u8])
        requires { record_bytes * records self.now.plan.bytes.now ≤ length out.old }
        ensures { let c = content_of (plan_of self.now.plan.bytes.now) in
            out.new ≡ placed out.old (record_bytes * rules_start c) (bytes_of (rule_records (legs_start c) (rules_start c) c.rules)) }
    {
        let mut at = self.rules_at;
        for rule in self.plan.rules() {
            at = self.put_rule(rule, at, out);
        }
    }
}

// Writes the archive form of an accepted plan to the start of the buffer. Bytes behind it do not change.
pub fn write(plan: AcceptedPlan, out: &mut [u8])
    requires { length plan.bytes.now ≤ length out.old }
    ensures { out.new ≡ archive_of (plan_of plan.entry.bytes.now) ++ drop (length plan.entry.bytes.now) out.old }
{
    let renumbered = Renumbered::new(plan);
    renumbered.put_header(out);
    renumbered.put_junctions(out);
    renumbered.put_belts(out);
    renumbered.put_rules(out);
}

// Line 4 of the refusal table: chain indices, and records that are reached twice or never.
use crate::plans::Base;
use crate::script::cases;

// Indices that lead out of the plan, to their own record, or back. Belt 10 stands behind the plan.
fn indices(rt: &impl Print) {
    cases(
        rt,
        Base::P,
        b"first-rule-10-of-10 120 | 0: 7 3 1 10 10 0\n\
          first-rule-65535 120 | 0: 7 3 1 65535 10 0\n\
          first-belt-10-of-10 120 | 3: 1 10 0 0 0 0; 10: 2 0 3 1 0 0\n\
          next-belt-10-of-10 120 | 5: 2 10 3 9 0 0; 10: 2 0 3 1 0 0\n\
          next-belt-65535 120 | 5: 2 65535 3 9 0 0\n\
          next-belt-261 120 | 4: 2 261 2 3 0 0\n\
          next-belt-itself 120 | 5: 2 5 3 9 0 0\n\
          next-belt-before 120 | 5: 2 4 3 9 0 0\n\
          next-rule-10-of-10 120 | 7: 3 10 8 0 0 0\n\
          next-rule-itself 120 | 7: 3 7 8 0 0 0\n\
          first-literal-10-of-10 120 | 7: 3 0 10 0 0 0\n\
          next-literal-10-of-10 120 | 9: 4 10 0 0 6 0\n\
          next-literal-itself 120 | 9: 4 9 0 0 6 0\n\
          next-literal-before 120 | 9: 4 8 0 0 6 0\n",
    )
}

// Indices of another kind; where two records are changed, every record is still reached once.
fn kinds(rt: &impl Print) {
    cases(
        rt,
        Base::P,
        b"first-rule-a-junction 120 | 0: 7 3 1 1 10 0\n\
          first-belt-a-junction 120 | 1: 1 2 0 0 0 0\n\
          next-belt-a-rule 120 | 0: 7 3 1 0 10 0; 5: 2 7 3 9 0 0\n\
          first-belt-a-literal 120 | 3: 1 9 0 0 0 0; 8: 4 0 0 0 4 0\n\
          next-belt-a-literal 120 | 6: 2 9 3 4 0 0; 8: 4 0 0 0 4 0\n\
          next-rule-a-literal 120 | 7: 3 8 0 0 0 0\n",
    )
}

// Plans of two junctions in which only the kind of an index is wrong; the last has it right.
fn small_kinds(rt: &impl Print) {
    cases(
        rt,
        Base::Junctions(2),
        b"first-rule-a-belt 48 | 0: 7 2 0 3 4 0; 3: 2 0 2 1 0 0\n\
          first-literal-a-belt 60 | 0: 7 2 0 3 5 0; 3: 3 0 4 0 0 0; 4: 2 0 2 1 0 0\n\
          next-literal-a-belt 72 | 0: 7 2 0 3 6 0; 3: 3 0 4 0 0 0; 4: 4 5 0 0 5 0; 5: 2 0 2 1 0 0\n\
          first-belt-a-belt 72 | 0: 7 2 0 3 6 0; 1: 1 5 0 0 0 0; 3: 3 0 4 0 0 0; 4: 4 0 0 0 5 0; 5: 2 0 2 1 0 0\n",
    )
}

// Every record is reached once, but some only by themselves, by a ring of two, or from a later one.
fn not_rising(rt: &impl Print) {
    cases(
        rt,
        Base::P,
        b"belt-5-by-itself 120 | 4: 2 0 2 3 0 0; 5: 2 5 3 9 0 0\n\
          rule-7-by-itself 120 | 0: 7 3 1 0 10 0; 7: 3 7 8 0 0 0\n\
          literal-9-by-itself 120 | 8: 4 0 0 0 4 0; 9: 4 9 0 0 6 0\n\
          belts-4-5-in-a-ring 120 | 1: 1 0 0 0 0 0; 5: 2 4 3 9 0 0\n\
          belts-5-4-backwards 120 | 1: 1 5 0 0 0 0; 4: 2 0 2 3 0 0; 5: 2 4 3 9 0 0\n\
          literals-9-8-backwards 120 | 7: 3 0 9 0 0 0; 8: 4 0 0 0 4 0; 9: 4 8 0 0 6 0\n",
    )
}

// Records that are reached twice or never, and belt 6 moved to junction 1; then a rule in place of literal 8.
fn reached(rt: &impl Print) {
    cases(
        rt,
        Base::P,
        b"belt-6-twice 120 | 5: 2 6 3 9 0 0\n\
          belt-6-from-1 120 | 2: 1 0 0 0 0 0; 5: 2 6 3 9 0 0\n\
          belt-5-never 120 | 4: 2 0 2 3 0 0\n\
          belt-6-never 120 | 2: 1 0 0 0 0 0\n\
          belt-4-never 120 | 1: 1 5 0 0 0 0; 4: 2 0 2 3 0 0\n\
          rule-7-never 120 | 0: 7 3 1 0 10 0\n\
          literal-8-never 120 | 7: 3 0 9 0 0 0; 8: 4 0 0 0 4 0\n\
          literal-9-never 120 | 8: 4 0 0 0 4 0\n\
          literal-9-twice 120 | 7: 3 8 9 0 0 0; 8: 3 0 9 0 0 0\n\
          rule-8-never 120 | 7: 3 0 9 0 0 0; 8: 3 0 0 0 0 0\n\
          rule-8-empty 120 | 7: 3 8 9 0 0 0; 8: 3 0 0 0 0 0\n",
    )
}

pub fn run(rt: &impl Print) {
    indices(rt);
    kinds(rt);
    small_kinds(rt);
    not_rising(rt);
    reached(rt)
}

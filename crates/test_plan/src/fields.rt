// Line 3 of the refusal table: each record by itself.
use crate::plans::Base;
use crate::script::cases;

// Kinds at places where they may not stand.
fn kinds(rt: &impl Print) {
    cases(
        rt,
        Base::P,
        b"junction-3-kind-0 120 | 3: 0 0 0 0 0 0\n\
          junction-3-kind-2 120 | 3: 2 0 3 0 0 0\n\
          junction-3-kind-3 120 | 3: 3 0 0 0 0 0\n\
          junction-3-kind-4 120 | 3: 4 0 0 0 4 0\n\
          junction-3-kind-7 120 | 3: 7 0 0 0 0 0\n\
          junction-3-kind-257 120 | 3: 257 0 0 0 0 0\n\
          record-9-kind-0 120 | 9: 0 0 0 0 0 0\n\
          record-9-kind-1 120 | 9: 1 0 0 0 0 0\n\
          record-4-kind-1 120 | 4: 1 5 0 0 0 0\n\
          record-9-kind-5 120 | 9: 5 0 0 0 6 0\n\
          record-9-kind-6 120 | 9: 6 0 0 0 6 0\n\
          record-9-kind-7 120 | 9: 7 0 0 0 6 0\n\
          record-9-kind-8 120 | 9: 8 0 0 0 6 0\n\
          record-9-kind-260 120 | 9: 260 0 0 0 6 0\n",
    )
}

// Fields that have to be zero.
fn zeros(rt: &impl Print) {
    cases(
        rt,
        Base::P,
        b"junction-f2 120 | 1: 1 4 1 0 0 0\n\
          junction-f3 120 | 2: 1 6 0 1 0 0\n\
          junction-f4 120 | 3: 1 0 0 0 1 0\n\
          junction-f5 120 | 3: 1 0 0 0 0 1\n\
          belt-f5 120 | 6: 2 0 3 4 0 1\n\
          belt-f5-256 120 | 4: 2 5 2 3 0 256\n\
          belt-f5-and-f4 120 | 6: 2 0 3 4 1 1\n\
          rule-f3 120 | 7: 3 0 8 1 0 0\n\
          rule-f4 120 | 7: 3 0 8 0 1 0\n\
          rule-f5 120 | 7: 3 0 8 0 0 1\n\
          literal-f5 120 | 9: 4 0 0 0 6 1\n\
          literal-f5-256 120 | 9: 4 0 0 0 6 256\n",
    )
}

// Fields with a range, and a belt's cost, which has none.
fn ranges(rt: &impl Print) {
    cases(
        rt,
        Base::P,
        b"belt-to-0 120 | 6: 2 0 0 4 0 0\n\
          belt-to-4 120 | 6: 2 0 4 4 0 0\n\
          belt-to-259 120 | 6: 2 0 259 4 0 0\n\
          belt-cost-0 120 | 6: 2 0 3 0 0 0\n\
          belt-cost-65535 120 | 6: 2 0 3 65535 0 0\n\
          belt-cost-65536 120 | 6: 2 0 3 0 1 0\n\
          belt-f4 120 | 4: 2 5 2 3 1 0\n\
          belt-cost-largest 120 | 6: 2 0 3 65535 65535 0\n\
          literal-f2-1 120 | 9: 4 0 1 0 6 0\n\
          literal-f2-2 120 | 9: 4 0 2 0 6 0\n\
          literal-f2-256 120 | 9: 4 0 256 0 6 0\n\
          literal-f3-2 120 | 9: 4 0 0 2 6 0\n\
          literal-f3-257 120 | 9: 4 0 0 257 1 0\n",
    )
}

pub fn run(rt: &impl Print) {
    kinds(rt);
    zeros(rt);
    ranges(rt)
}

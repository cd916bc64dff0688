// Lines 5 to 7 of the refusal table: where belts lead, what literals name, and how many belts are named.
use crate::plans::Base;
use crate::script::cases;

// Belts that do not rise; belt 6 also after it is moved to junction 3 and 1.
fn belts(rt: &impl Print) {
    cases(
        rt,
        Base::P,
        b"belt-6-to-own-2 120 | 6: 2 0 2 4 0 0\n\
          belt-6-to-lower-1 120 | 6: 2 0 1 4 0 0\n\
          belt-4-to-own-1 120 | 4: 2 5 1 3 0 0\n\
          belt-5-to-own-1 120 | 5: 2 0 1 9 0 0\n\
          belt-6-from-3-to-3 120 | 2: 1 0 0 0 0 0; 3: 1 6 0 0 0 0\n\
          belt-6-from-1-to-2 120 | 2: 1 0 0 0 0 0; 5: 2 6 3 9 0 0; 6: 2 0 2 4 0 0\n\
          belt-6-from-1-to-1 120 | 2: 1 0 0 0 0 0; 5: 2 6 3 9 0 0; 6: 2 0 1 4 0 0\n",
    )
}

// Another literal 9, a belt's and then a mode's. Belt 10 stands behind the plan.
// Last, the literal that stands first in the shuffled plan.
fn literals(rt: &impl Print) {
    cases(
        rt,
        Base::P,
        b"names-record-0 120 | 9: 4 0 0 0 0 0\n\
          names-a-junction 120 | 9: 4 0 0 0 3 0\n\
          names-a-rule 120 | 9: 4 0 0 0 7 0\n\
          names-itself 120 | 9: 4 0 0 0 9 0\n\
          names-10-of-10 120 | 9: 4 0 0 0 10 0; 10: 2 0 3 1 0 0\n\
          names-262 120 | 9: 4 0 0 0 262 0\n\
          names-65535 120 | 9: 4 0 0 0 65535 0\n\
          names-4-again 120 | 9: 4 0 0 0 4 0\n\
          mode-0-of-1 120 | 9: 4 0 0 1 0 0\n\
          mode-1-of-1 120 | 9: 4 0 0 1 1 0\n\
          mode-2-of-1 120 | 9: 4 0 0 1 2 0\n\
          mode-4-of-1 120 | 9: 4 0 0 1 4 0\n\
          mode-257-of-1 120 | 9: 4 0 0 1 257 0\n",
    );
    cases(
        rt,
        Base::Shuffled,
        b"first-literal-names-0 120 | 5: 4 6 0 0 0 0\n",
    )
}

// Literal 9 names a mode, in a plan of other modes than P's one.
fn modes(rt: &impl Print) {
    cases(
        rt,
        Base::P,
        b"mode-0-of-0 120 | 0: 7 3 0 7 10 0; 9: 4 0 0 1 0 0\n\
          mode-1-of-0 120 | 0: 7 3 0 7 10 0; 9: 4 0 0 1 1 0\n\
          mode-9-of-9 120 | 0: 7 3 9 7 10 0; 9: 4 0 1 1 9 0\n\
          mode-10-of-9 120 | 0: 7 3 9 7 10 0; 9: 4 0 1 1 10 0\n\
          mode-10-of-10 120 | 0: 7 3 10 7 10 0; 9: 4 0 0 1 10 0\n\
          mode-11-of-10 120 | 0: 7 3 10 7 10 0; 9: 4 0 0 1 11 0\n",
    )
}

// Literals 54 to 101 are 48. The literal behind them is changed; then the literals from 78 on are in a second rule.
fn named(rt: &impl Print) {
    cases(rt, Base::Named(101), b"48-named 1224\n");
    cases(rt, Base::Named(103), b"50-named 1248\n");
    cases(
        rt,
        Base::Named(102),
        b"49-named 1236\n\
          49-named-one-wanted 1236 | 102: 4 0 1 0 51 0\n\
          48-named-one-twice 1236 | 102: 4 0 0 0 50 0\n\
          48-named-one-both-ways 1236 | 102: 4 0 1 0 3 0\n\
          48-named-and-a-mode 1236 | 102: 4 0 0 1 1 0\n\
          49-named-by-two-rules 1236 | 0: 7 2 1 52 103 0; 51: 2 0 2 1 0 0; 52: 3 53 54 0 0 0; 53: 3 0 78 0 0 0; 77: 4 0 0 0 26 0\n\
          48-named-by-two-rules 1236 | 0: 7 2 1 52 103 0; 51: 2 0 2 1 0 0; 52: 3 53 54 0 0 0; 53: 3 0 78 0 0 0; 77: 4 0 0 0 26 0; 78: 4 79 0 0 26 0\n",
    )
}

pub fn run(rt: &impl Print) {
    belts(rt);
    literals(rt);
    modes(rt);
    named(rt)
}

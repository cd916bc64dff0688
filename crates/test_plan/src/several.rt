// Plans that break several lines of the refusal table: the lower number is answered, wherever its record stands.
use crate::plans::Base;
use crate::script::cases;

// Lines 1 to 3. Line 2 looks at record 0 alone, so no record of a later line stands before it.
fn headers(rt: &impl Print) {
    cases(
        rt,
        Base::P,
        b"119-bytes-kind-6 119 | 0: 6 3 1 7 10 0\n\
          counts-9-M-11 120 | 0: 7 3 11 7 9 0\n\
          header-f5-literal-f5 120 | 0: 7 3 1 7 10 1; 9: 4 0 0 0 6 1\n\
          M-11-junction-kind-2 120 | 0: 7 3 11 7 10 0; 1: 2 4 2 0 0 0\n",
    )
}

// Two of lines 3 to 6; each pair also with the higher line broken first.
fn pairs(rt: &impl Print) {
    cases(
        rt,
        Base::P,
        b"field-then-chain 120 | 1: 1 4 1 0 0 0; 8: 4 0 0 0 4 0\n\
          chain-then-field 120 | 1: 1 10 0 0 0 0; 9: 4 0 0 0 6 1\n\
          field-then-belt 120 | 4: 2 5 2 3 0 1; 6: 2 0 2 4 0 0\n\
          belt-then-field 120 | 4: 2 5 1 3 0 0; 9: 4 0 2 0 6 0\n\
          chain-then-belt 120 | 0: 7 3 1 0 10 0; 6: 2 0 2 4 0 0\n\
          belt-then-chain 120 | 4: 2 5 1 3 0 0; 8: 4 0 0 0 4 0\n\
          field-then-literal 120 | 4: 2 5 2 3 0 1; 9: 4 0 0 0 0 0\n\
          chain-then-literal 120 | 5: 2 5 3 9 0 0; 8: 4 9 0 0 0 0\n\
          belt-then-literal 120 | 6: 2 0 2 4 0 0; 9: 4 0 0 0 0 0\n",
    );
    cases(
        rt,
        Base::Shuffled,
        b"literal-then-field 120 | 5: 4 6 0 0 0 0; 9: 2 0 3 4 0 1\n\
          literal-then-chain 120 | 5: 4 6 0 0 0 0; 8: 2 8 3 9 0 0\n\
          literal-then-belt 120 | 5: 4 6 0 0 0 0; 9: 2 0 2 4 0 0\n",
    )
}

// 49 named belts, and a literal that names none before or behind them; then 50, and a belt that does not rise.
fn many_named(rt: &impl Print) {
    cases(
        rt,
        Base::Named(103),
        b"literal-then-49-named 1248 | 54: 4 55 0 0 0 0\n\
          49-named-then-literal 1248 | 103: 4 0 0 1 2 0\n\
          belt-then-50-named 1248 | 3: 2 4 1 1 0 0\n",
    )
}

// Lines 1 to 6 broken, and mended from line 1 on.
fn mended(rt: &impl Print) {
    cases(
        rt,
        Base::P,
        b"broken-from-1 119 | 0: 7 3 1 7 10 1; 1: 1 10 0 0 0 0; 6: 2 0 2 4 0 0; 9: 4 0 0 0 0 1\n\
          broken-from-2 120 | 0: 7 3 1 7 10 1; 1: 1 10 0 0 0 0; 6: 2 0 2 4 0 0; 9: 4 0 0 0 0 1\n\
          broken-from-3 120 | 1: 1 10 0 0 0 0; 6: 2 0 2 4 0 0; 9: 4 0 0 0 0 1\n\
          broken-from-4 120 | 1: 1 10 0 0 0 0; 6: 2 0 2 4 0 0; 9: 4 0 0 0 0 0\n\
          broken-from-5 120 | 6: 2 0 2 4 0 0; 9: 4 0 0 0 0 0\n\
          broken-at-6 120 | 9: 4 0 0 0 0 0\n\
          mended 120\n",
    )
}

pub fn run(rt: &impl Print) {
    headers(rt);
    pairs(rt);
    many_named(rt);
    mended(rt)
}

// Lines 1 and 2 of the refusal table: the size of a plan, and record 0.
use crate::plans::Base;
use crate::script::cases;

// P whole, in part and with a tail; then under other counts of records, of which the last is 10 more than 2^14.
fn sizes_of_p(rt: &impl Print) {
    cases(
        rt,
        Base::P,
        b"P 120\n\
          P-119-bytes 119\n\
          P-121-bytes 121\n\
          P-108-bytes 108\n\
          P-132-bytes 132\n\
          P-counts-9 120 | 0: 7 3 1 7 9 0\n\
          P-counts-11 120 | 0: 7 3 1 7 11 0\n\
          P-counts-16394 120 | 0: 7 3 1 7 16394 0\n",
    );
    cases(rt, Base::Shuffled, b"P-shuffled 120\n")
}

// One junction and nothing else. 12 times 16386 is 24 more than 3 times 2^16.
fn smallest(rt: &impl Print) {
    cases(
        rt,
        Base::Junctions(1),
        b"24-bytes 24 | 0: 7 1 0 0 2 0\n\
          23-bytes 23 | 0: 7 1 0 0 2 0\n\
          25-bytes 25 | 0: 7 1 0 0 2 0\n\
          12-bytes 12 | 0: 7 1 0 0 2 0\n\
          no-bytes 0\n\
          one-record 12 | 0: 7 1 0 0 1 0\n\
          24-bytes-count-wraps 24 | 0: 7 1 0 0 16386 0\n",
    )
}

// Two junctions, and as many belts as there is room for; then one more.
fn largest(rt: &impl Print) {
    cases(
        rt,
        Base::Belts(2047),
        b"24576-bytes 24576 | 0: 7 2 0 0 2048 0\n\
          24575-bytes 24575 | 0: 7 2 0 0 2048 0\n\
          24577-bytes 24577 | 0: 7 2 0 0 2048 0\n",
    );
    cases(
        rt,
        Base::Belts(2048),
        b"24588-bytes 24588 | 0: 7 2 0 0 2049 0\n",
    )
}

// Plans of junctions alone.
fn junctions(rt: &impl Print) {
    cases(
        rt,
        Base::Junctions(257),
        b"256-junctions 3084 | 0: 7 256 0 0 257 0\n\
          256-junctions-256-records 3072 | 0: 7 256 0 0 256 0\n\
          257-junctions 3096 | 0: 7 257 0 0 258 0\n",
    )
}

// P with another record 0.
fn headers(rt: &impl Print) {
    cases(
        rt,
        Base::P,
        b"kind-6 120 | 0: 6 3 1 7 10 0\n\
          kind-8 120 | 0: 8 3 1 7 10 0\n\
          kind-263 120 | 0: 263 3 1 7 10 0\n\
          J-0 120 | 0: 7 0 1 7 10 0\n\
          J-257 120 | 0: 7 257 1 7 10 0\n\
          J-65535 120 | 0: 7 65535 1 7 10 0\n\
          J-10-of-10-records 120 | 0: 7 10 1 7 10 0\n\
          J-9-of-10-records 120 | 0: 7 9 1 7 10 0\n\
          M-0 120 | 0: 7 3 0 7 10 0\n\
          M-10 120 | 0: 7 3 10 7 10 0\n\
          M-11 120 | 0: 7 3 11 7 10 0\n\
          M-257 120 | 0: 7 3 257 7 10 0\n\
          header-f5 120 | 0: 7 3 1 7 10 1\n",
    )
}

pub fn run(rt: &impl Print) {
    sizes_of_p(rt);
    smallest(rt);
    largest(rt);
    junctions(rt);
    headers(rt)
}

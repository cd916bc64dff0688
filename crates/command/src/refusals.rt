// The causes of refusal, in the words of the refusal table. Which words are printed is held by the tests of the programs.
use output::{Printer, Streams, warn};
use plan::refusal::Refusal;

// The cause in the table's words.
fn words(r: Refusal) -> &'static [u8] {
    match r {
        Refusal::WrongSize => b"plan under 24 or over 24,576 bytes, or not 12 x f4 of record 0",
        Refusal::WrongHeader => b"f0, J, M or f5 of record 0 wrong, or N < J + 1",
        Refusal::WrongRecord =>
            b"a record from 1 to J not of kind 1, one above J not of kind 2, 3 or 4, a ranged field (f2 of belts and literals, f3 of literals) or a zero field wrong",
        Refusal::WrongChain =>
            b"chain index not below N, not larger than its holder, or of another kind; a record above J reached twice or never",
        Refusal::BackwardBelt => b"belt not leading to a higher junction",
        Refusal::WrongLiteral => b"literal naming no belt record, or a mode outside 1 to M",
        Refusal::ManyNamed => b"over 48 named belts",
        Refusal::WrongEnds => b"s or t outside 1 to J",
        Refusal::WrongQuery => b"pick over 2, order over 1, budget 0",
        Refusal::ShortBuffer => b"out buffer under 3,072 bytes",
        Refusal::WrongSheet =>
            b"sheet empty, over 3,072 bytes, not in the form, a step whose f2 is no belt's index, or setting 2^M or more",
        Refusal::NotARoute => b"belts not a route from s to t",
        Refusal::WrongCost => b"cost differs from the sum",
        Refusal::UnmetRule =>
            b"a rule not met under the sheet's setting, or a setting that breaks the lock",
        Refusal::WrongLock =>
            b"mask with a bit at or above M, or a value with a bit outside the mask",
        Refusal::ShortPlanBuffer => b"out buffer shorter than the plan",
    }
}

// Prints that something is refused, with the number of the line, and the cause.
pub fn print_refused<R: Streams>(rt: &R, r: Refusal) {
    let mut out = Printer::new(rt);
    out.put_number(b"refused ", u64::from(u8::from(r)));
    out.put(b": ");
    out.put(words(r));
    out.put(b"\n");
    out.finish();
}

// Prints that something is refused, with the number of the line alone, and says the cause on standard error.
pub fn print_number<R: Streams>(rt: &R, r: Refusal) {
    let mut out = Printer::new(rt);
    out.put_number(b"refused ", u64::from(u8::from(r)));
    out.put(b"\n");
    out.finish();
    tell_cause(rt, r);
}

// Says the cause on standard error.
pub fn tell_cause<R: Streams>(rt: &R, r: Refusal) {
    warn(rt, words(r), b"");
}

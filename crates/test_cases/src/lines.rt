// Lines of text: numbers and signs. The signs are a bar, a plus, a minus and the end of the line; numbers are parted by any other bytes.
ghost use Rattle.std.specs.Prelude.{◌≡◌, ◌<◌, ◌+◌, length, get_or, drop, take, IsSome, position, eqb};
ghost use Rattle.test_cases.specs.Lines.{is_sign, appended, number_in, number_or_zero, numbers_in, line_length, behind_length, name_length, put_number, changed};

use crate::records;
use crate::records::Bytes;

fn is_sign(c: u8) -> bool
    ensures { result ≡ is_sign c }
{
    matches!(c, b'|' | b'+' | b'-' | b'\n')
}

// The number with one more digit; 0 where that takes more than 64 bits.
fn appended(value: u64, digit: u8) -> u64
    ensures { result ≡ appended value digit }
{
    value
        .checked_mul(10)
        .and_then(|tens| tens.checked_add(u64::from(digit)))
        .unwrap_or(0)
}

// Where the text has such a byte first.
fn find(text: &[u8], byte: u8) -> Option<usize>
    ensures { result ≡ position (λ c. eqb c byte) text.now }
{
    text.iter().position(|c| *c == byte)
}

// A line that is read from its start on: what is left of the text.
#[derive(Clone, Copy, Debug, PartialEq, Eq)]
pub struct Line<'a> {
    pub rest: &'a [u8],
}

impl<'a> Line<'a> {
    // The next number of the line. Where a sign comes first there is none, and the line goes on at the sign.
    pub fn next_number(&mut self) -> Option<u64>
        ensures number { result ≡ (number_in self.old.rest.now).number }
        ensures rest { self.new.rest.now ≡ (number_in self.old.rest.now).rest }
        ensures shorter { IsSome result → length self.new.rest.now < length self.old.rest.now }
    {
        let mut number = None;
        while let Some((c, behind)) = self.rest.split_first() {
            if c.is_ascii_digit() {
                number = Some(appended(number.unwrap_or(0), *c - b'0'));
            } else if number.is_some() || is_sign(*c) {
                break;
            }
            self.rest = behind;
        }
        number
    }

    // The next number of the line; 0 where there is none.
    pub fn number_or_zero(&mut self) -> u64
        ensures number { result ≡ number_or_zero self.old.rest.now }
        ensures rest { self.new.rest.now ≡ (number_in self.old.rest.now).rest }
    {
        self.next_number().unwrap_or(0)
    }

    // The byte that stands so far on; a newline where there is none.
    pub fn byte(&self, far: usize) -> u8
        ensures { result ≡ get_or self.now.rest.now far 10 }
    {
        self.rest.get(far).copied().unwrap_or(b'\n')
    }

    // The line from behind its next such sign on; from its end on where it has none.
    pub fn behind(self, sign: u8) -> Line<'a>
        ensures { result.rest.now ≡ drop (behind_length sign self.entry.rest.now) self.entry.rest.now }
    {
        let end = find(self.rest, b'\n').unwrap_or(self.rest.len());
        let next = find(&self.rest[..end], sign).map_or(end, |i| i + 1);
        Line {
            rest: &self.rest[next..],
        }
    }

    // The name at the start of the line, up to a space, which is left.
    #[tactic(auto, using(crate::proofs::Scan::before_is))]
    pub fn next_name(&mut self) -> &'a [u8]
        ensures name { result.now ≡ take (name_length self.old.rest.now) self.old.rest.now }
        ensures rest { self.new.rest.now ≡ drop (name_length self.old.rest.now) self.old.rest.now }
    {
        let end = find(self.rest, b' ').unwrap_or(self.rest.len());
        let (name, rest) = self.rest.split_at(end);
        self.rest = rest;
        name
    }

    // The next line.
    pub fn next_line(self) -> Line<'a>
        ensures { result.rest.now ≡ drop (line_length self.entry.rest.now) self.entry.rest.now }
    {
        let next = find(self.rest, b'\n').map_or(self.rest.len(), |end| end + 1);
        Line {
            rest: &self.rest[next..],
        }
    }
}

// The lines of a text that are left.
#[derive(Debug, Drop)]
pub struct Lines<'a> {
    pub rest: &'a [u8],
}

impl<'a> Lines<'a> {
    // The lines of a text, each with all that stands behind it.
    pub fn of(text: &'a [u8]) -> Lines<'a>
        ensures { result.rest.now ≡ text.now }
    {
        Lines { rest: text }
    }
}

impl<'a> Iterator for Lines<'a> {
    ghost use Rattle.std.specs.Iterator.{YieldsFirstBy, item_count};
    ghost use Rattle.test_cases.specs.Lines.{lines_in};

    type Item = Line<'a>;

    ghost next_gives = { YieldsFirstBy (λ line. line.rest.now) (λ lines. lines_in lines.rest.now) };

    ghost remaining = { item_count (λ lines. lines_in lines.rest.now) };

    #[tactic(auto, using(crate::proofs::Scan::lines_next))]
    fn next(&mut self) -> Option<Line<'a>> {
        if self.rest.is_empty() {
            return None;
        }
        let line = Line { rest: self.rest };
        self.rest = line.next_line().rest;
        Some(line)
    }
}

// Writes a field of a record, if both numbers fit.
fn put_number(buf: &mut Bytes, index: u64, field: usize, value: u64)
    ensures { buf.new ≡ put_number buf.old index field value }
{
    if let (Ok(index), Ok(value)) = (u16::try_from(index), u16::try_from(value)) {
        records::put_field(buf, usize::from(index), field, value);
    }
}

// Writes the records that the line has, each an index and six fields, up to the first sign.
pub fn change_records(buf: &mut Bytes, mut line: Line)
    ensures { buf.new ≡ changed buf.old (numbers_in line.entry.rest.now) }
{
    while let Some(index) = line.next_number() {
        for field in 0..6 {
            let Some(value) = line.next_number() else {
                return;
            };
            put_number(buf, index, field, value);
        }
    }
}

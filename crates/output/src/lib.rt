// Text that programs print. What goes to standard output is gathered by a `Printer`, and written in large pieces; lines for standard error go
// out at once. What is gathered is proved; what the system makes of a write is outside the logic.
#![tactic(auto)]

ghost use Rattle.std.specs.Prelude.{◌≡◌, true, false, [], ◌∷◌, ◌+◌, length};
ghost use Rattle.output.specs.Gathering.{Gathers, GathersNumber, Failed};

use std::fmt::InlineText;
use std::io;
use std::io::{Error, Print};
use std::rt::HostRuntime;

// What prints bytes, that need not be text, on standard output and on standard error.
pub trait Streams: Print {
    // Writes all of the bytes on standard error, or fails.
    fn complain_bytes(&self, bytes: &[u8]) -> io::Result<()>;
}

impl Streams for HostRuntime {
    fn complain_bytes(&self, bytes: &[u8]) -> io::Result<()> {
        self.stderr().write_all(bytes)
    }
}

// Gathers text in a room, and writes the room where it is full.
#[derive(Drop)]
pub struct Printer<'a, R> {
    // Where the text is written.
    rt: &'a R,
    pub room: [u8; 65536],
    // How many bytes of the room are filled.
    pub filled: usize,
    // Whether a write has failed.
    pub failed: bool,
}

impl<'a, R: Streams> Printer<'a, R> {
    // Nothing is gathered yet.
    pub fn new(rt: &'a R) -> Printer<'a, R>
        ensures { (result.filled ≡ 0)
            × (result.failed ≡ false) }
    {
        Printer {
            rt,
            room: [0; 65536],
            filled: 0,
            failed: false,
        }
    }

    // The filled part of the room.
    fn gathered(&self) -> &[u8] {
        let end = self.filled.min(self.room.len());
        &self.room[..end]
    }

    // Writes what is gathered, and answers whether that or an earlier write has failed. The first failure is told on standard error, and nothing is
    // written after it.
    fn write(&self) -> bool
        ensures { self.now.failed ≡ true → result ≡ true }
    {
        if self.failed {
            return true;
        }
        match self.rt.write_all(self.gathered()) {
            Ok(()) => false,
            Err(e) => {
                fail(self.rt, b"standard output", e);
                true
            }
        }
    }

    // Gathers one byte more. Full room is written first.
    fn put_byte(&mut self, byte: u8)
        ensures gathers { Gathers self.old.room self.old.filled (byte ∷ []) self.new.room self.new.filled }
        ensures failed { Failed (self.old.filled + 1) self.old.failed self.new.failed }
    {
        if self.room.len() <= self.filled {
            self.failed = self.write();
            self.filled = 0;
        }
        self.room[self.filled] = byte;
        self.filled += 1;
    }

    // Gathers words.
    pub fn put(&mut self, words: &[u8])
        ensures gathers { Gathers self.old.room self.old.filled words.now self.new.room self.new.filled }
        ensures failed { Failed (self.old.filled + length words.now) self.old.failed self.new.failed }
    {
        for byte in words {
            self.put_byte(*byte);
        }
    }

    // Gathers a number in decimal digits: first those of its tenth, where there is one, and then the last.
    fn put_digits(&mut self, n: u64)
        ensures { GathersNumber self.old.room self.old.filled self.old.failed [] n self.new.room self.new.filled self.new.failed }
    {
        if 10 <= n {
            self.put_digits(n / 10);
        }
        self.put_byte(b'0' + (n % 10) as u8);
    }

    // Gathers words and a number behind them, in decimal digits.
    pub fn put_number(&mut self, words: &[u8], n: u64)
        ensures { GathersNumber self.old.room self.old.filled self.old.failed words.now n self.new.room self.new.filled self.new.failed }
    {
        self.put(words);
        self.put_digits(n);
    }

    // Writes what is gathered to standard output, and answers whether that or an earlier write has failed. It is no `Result`, since the error has been
    // told by then and no caller goes on with it.
    pub fn finish(&self) -> bool
        ensures { self.now.failed ≡ true → result ≡ true }
    {
        self.write()
    }

    // Writes what is gathered to standard error. It is for text that fits into the room, since full room goes to standard output.
    pub fn complain(&self) {
        let _ = self.rt.complain_bytes(self.gathered());
    }
}

// The system's words for an error, without the number that std writes behind them.
fn words_of(text: &str) -> &str {
    match text.split_once(" (os error ") {
        Some((words, _)) => words,
        None => text,
    }
}

// Says on standard error what failed, and why.
pub fn fail<R: Streams>(rt: &R, what: &[u8], error: Error) {
    let text = InlineText::<256>::of(error);
    let _ = rt.complain_bytes(what);
    let _ = rt.complain_bytes(b": ");
    let _ = rt.complain_bytes(words_of(text.as_str()).as_bytes());
    let _ = rt.complain_bytes(b"\n");
}

// Prints words on standard output, at once. Where that fails, standard error says why.
pub fn print<R: Streams>(rt: &R, words: &[u8]) {
    if let Err(e) = rt.write_all(words) {
        fail(rt, b"standard output", e);
    }
}

// Says on standard error what is wrong, and of what.
pub fn warn<R: Streams>(rt: &R, of: &[u8], what: &[u8]) {
    let mut out = Printer::new(rt);
    out.put(of);
    out.put(what);
    out.put(b"\n");
    out.complain();
}

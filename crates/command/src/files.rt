// Files of bytes that are read. Where the system refuses, standard error says why. Which bytes a file has is outside the logic.
ghost use Rattle.std.specs.Prelude.{◌≤◌, length};

use crate::buffer::Buffer;
use crate::failure::{Failure, refused_by_system};
use crate::paths;
use output::Streams;
use std::fs::Files;
use std::io::{Error, Input};

// The name that stands for standard input.
pub const STANDARD_INPUT: &[u8] = b"-";

// What bytes are read from. It is no `Option`, since standard input is no missing file.
#[derive(Drop)]
pub enum Source<F> {
    // Standard input.
    Input,
    // An open file.
    File(F),
}

// Says on standard error why a file can't be read.
fn unread<R: Streams>(rt: &R, name: &[u8], error: Error) -> Failure {
    if name == STANDARD_INPUT {
        return refused_by_system(rt, b"standard input", error);
    }
    refused_by_system(rt, name, error)
}

// Opens a file for reading. Standard input is open.
pub fn open<R: Files + Streams>(rt: &R, name: &[u8]) -> Result<Source<R::File>, Failure> {
    if name == STANDARD_INPUT {
        return Ok(Source::Input);
    }
    match paths::open(rt, name) {
        Ok(file) => Ok(Source::File(file)),
        Err(e) => Err(unread(rt, name, e)),
    }
}

// Reads what `open` opened into the buffer, as much of it as there is room for, and closes it, unless that is standard input. Where the system refuses, the
// buffer has the bytes that came before.
pub fn read_opened<R: Files + Input + Streams, const N: usize>(
    rt: &R,
    source: Source<R::File>,
    name: &[u8],
    into: &mut Buffer<N>,
) -> Result<(), Failure>
    ensures { length into.new ≤ N }
{
    let read = match source {
        Source::Input => into.read_from(&mut rt.reader()),
        Source::File(mut file) => into.read_from(&mut file),
    };
    read.map_err(|e| unread(rt, name, e))
}

// Reads a file into the buffer, as much of it as there is room for. Where the system refuses, the buffer has the bytes that came before.
pub fn read<R: Files + Input + Streams, const N: usize>(
    rt: &R,
    name: &[u8],
    into: &mut Buffer<N>,
) -> Result<(), Failure>
    ensures { length into.new ≤ N }
{
    into.clear();
    read_opened(rt, open(rt, name)?, name, into)
}

// The words that a program is started with, counted from 1. Which words those are is outside the logic. Where one is not as it should be, standard
// error says so.
use crate::buffer::{Buffer, Word};
use crate::decimal;
use crate::failure::{Failure, misuse};
use crate::files::STANDARD_INPUT;
use output::Streams;
use std::env::{Env, FillError};

// What a program is asked for by its first word.
#[derive(Clone, Copy, Debug, PartialEq, Eq)]
pub enum Request {
    // -h or --help: how the program is used.
    Usage,
    // --version: which program this is.
    Version,
    // Anything else: what the program is for.
    Work,
}

// Argument i, if there is one of at most N bytes.
fn argument<R: Env, const N: usize>(rt: &R, i: usize) -> Result<Buffer<N>, FillError> {
    let mut room = [0u8; N];
    let size = rt.arg(i, room.as_mut_slice())?;
    Ok(Buffer::of_room(room, size))
}

// What the first word asks for.
pub fn requested<R: Env>(rt: &R) -> Request {
    let word: Word = match argument(rt, 1) {
        Ok(word) => word,
        Err(_) => return Request::Work,
    };
    match word.as_bytes() {
        b"-h" | b"--help" => Request::Usage,
        b"--version" => Request::Version,
        _ => Request::Work,
    }
}

// Argument i, which has to be there, may not be empty, and has at most N bytes.
pub fn word<R: Env + Streams, const N: usize>(
    rt: &R,
    i: usize,
    name: &[u8],
) -> Result<Buffer<N>, Failure> {
    match argument(rt, i) {
        Ok(word) if word.as_bytes().is_empty() => Err(misuse(rt, name, b" is empty")),
        Ok(word) => Ok(word),
        Err(FillError::NotPresent) => Err(misuse(rt, name, b" is missing")),
        Err(FillError::TooLong) => Err(misuse(rt, name, b" is too long")),
    }
}

// The same of an argument that names a file, and so does not begin as an option does. The name - stands for standard input.
pub fn input<R: Env + Streams, const N: usize>(
    rt: &R,
    i: usize,
    name: &[u8],
) -> Result<Buffer<N>, Failure> {
    let word: Buffer<N> = word(rt, i, name)?;
    let bytes = word.as_bytes();
    if 1 < bytes.len() && bytes.starts_with(b"-") {
        return Err(misuse(
            rt,
            bytes,
            b" is no option; write ./ before the name of such a file",
        ));
    }
    Ok(word)
}

// The same of an argument that may be left out, and then stands for standard input.
pub fn input_or_standard<R: Env + Streams>(rt: &R, i: usize, name: &[u8]) -> Result<Word, Failure> {
    if given(rt, i) {
        return input(rt, i, name);
    }
    Ok(Word::new().append(STANDARD_INPUT))
}

// The same of a file that has to have a name of its own.
pub fn file<R: Env + Streams, const N: usize>(
    rt: &R,
    i: usize,
    name: &[u8],
) -> Result<Buffer<N>, Failure> {
    let word: Buffer<N> = input(rt, i, name)?;
    if word.as_bytes() == STANDARD_INPUT {
        return Err(misuse(rt, name, b" can't be -; it is the name of a file"));
    }
    Ok(word)
}

// Whether there is an argument i.
pub fn given<R: Env>(rt: &R, i: usize) -> bool {
    let word: Result<Word, FillError> = argument(rt, i);
    !matches!(word, Err(FillError::NotPresent))
}

// Argument i as a number.
pub fn number<R: Env + Streams>(rt: &R, i: usize, name: &[u8]) -> Result<u64, Failure> {
    let word: Word = word(rt, i, name)?;
    match decimal::decimal(word.as_bytes()) {
        Some(value) => Ok(value),
        None => Err(misuse(rt, name, b" is no number from 0 to 18446744073709551615")),
    }
}

// The same, or `usual` where the argument is left out.
fn number_if<R: Env + Streams>(
    rt: &R,
    is_given: bool,
    i: usize,
    name: &[u8],
    usual: u64,
) -> Result<u64, Failure> {
    if is_given {
        return number(rt, i, name);
    }
    Ok(usual)
}

// Argument i as a number. It may be left out, and then stands for `usual`.
pub fn number_or<R: Env + Streams>(
    rt: &R,
    i: usize,
    name: &[u8],
    usual: u64,
) -> Result<u64, Failure> {
    number_if(rt, given(rt, i), i, name, usual)
}

// The same of an argument that belongs to argument `other`: it may be left out only where that is, and then stands for 0.
pub fn number_with<R: Env + Streams>(
    rt: &R,
    i: usize,
    name: &[u8],
    other: usize,
) -> Result<u64, Failure> {
    number_if(rt, given(rt, other), i, name, 0)
}

// There may be no more arguments than these.
pub fn at_most<R: Env + Streams>(rt: &R, most: usize) -> Result<(), Failure> {
    if most < usize::MAX && given(rt, most + 1) {
        return Err(misuse(rt, b"", b"too many arguments"));
    }
    Ok(())
}

// Says on standard error where to read how the program is used.
pub fn hint<R: Streams>(rt: &R, program: &[u8]) {
    output::warn(rt, program, b" --help says how it is used");
}

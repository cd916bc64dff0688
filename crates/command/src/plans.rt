// The file that the archive form of a plan is written to. A file that stands there is not replaced; only one that another program puts there while it
// is being written is. Where the system refuses, standard error says why. What the system does is outside the logic.
use crate::buffer::PlanBytes;
use crate::failure::{Failure, refused_by_system, wrong_file};
use crate::paths::{EACCES, ENOENT, EROFS};
use crate::{files, paths, saving, status};
use output::Streams;
use std::fs::Files;
use std::io::{Error, Input};
use std::random::RandomSource;

// Whether there is a file at this place, where it can't be opened with this error. Files of an archive may be there to be read only.
fn is_there_still<R: Streams>(rt: &R, path: &[u8], error: Error) -> Result<bool, Failure> {
    match error.raw_os_error() {
        Some(ENOENT) => Ok(false),
        Some(EACCES | EROFS) => Ok(true),
        _ => Err(refused_by_system(rt, path, error)),
    }
}

// Whether there is a file at this place. It is opened for reading and writing, since a pipe that is opened so is not waited for, and it is not changed.
// Nothing is printed while it is open: where standard error was closed, the file may have its number.
fn is_there<R: Files + Streams>(rt: &R, path: &[u8]) -> Result<bool, Failure> {
    let status = match paths::open_update(rt, path) {
        Ok(file) => status::of(&file),
        Err(e) => return is_there_still(rt, path, e),
    };
    if status.is_some_and(|status| status.is_regular()) {
        return Ok(true);
    }
    Err(wrong_file(
        rt,
        path,
        b": is no regular file; a plan can't be written there",
    ))
}

// A file has to hold these bytes and nothing else.
fn holds<R: Files + Input + Streams>(rt: &R, path: &[u8], bytes: &[u8]) -> Result<(), Failure> {
    let mut contents = PlanBytes::new();
    files::read(rt, path, &mut contents)?;
    if contents.as_bytes() == bytes {
        return Ok(());
    }
    Err(wrong_file(
        rt,
        path,
        b": exists and holds something else; it is not replaced",
    ))
}

// Has a file of this name hold these bytes: writes it where there is none, and leaves alone what is there.
pub fn keep<R: Files + Input + RandomSource + Alloc + Streams>(
    rt: &R,
    path: &[u8],
    bytes: &[u8],
) -> Result<(), Failure> {
    if is_there(rt, path)? {
        return holds(rt, path, bytes);
    }
    saving::save(rt, path, bytes, None)
}

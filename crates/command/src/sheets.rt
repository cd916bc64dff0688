// The file that a route sheet is written to. What stands there is never lost: a sheet is written whole or not at all, and a file that is no sheet is
// not replaced. Where the system refuses, standard error says why. What the system does is outside the logic.
use crate::failure::{Failure, refused_by_system, wrong_file};
use crate::files::Source;
use crate::paths::ENOENT;
use crate::status::Status;
use crate::{paths, saving, status};
use output::{Streams, warn};
use std::fs::{Files, OpenFile};
use std::io::Read;
use std::random::RandomSource;

// Whether a file that was just opened begins as a sheet does: its first field is 8.
fn begins_as_sheet<F: Read>(file: &mut F) -> bool {
    let mut field = [0u8; 2];
    matches!(file.read(&mut field), Ok(2)) && u16::from_be_bytes(field) == 8
}

// Why a file is no sheet that may be replaced.
#[derive(Clone, Copy, Debug, PartialEq, Eq)]
enum Unfit {
    // The file that the plan is read from.
    Plan,
    // A folder, a device, a pipe.
    Irregular,
    // Another file.
    Other,
}

impl Unfit {
    fn words(self) -> &'static [u8] {
        match self {
            Unfit::Plan => b": is the same file as PLAN; a plan is not replaced",
            Unfit::Irregular => b": is no regular file; a sheet can't be written there",
            Unfit::Other => b": exists and is no route sheet; it is not replaced",
        }
    }
}

// The mode of a sheet that was just opened, where `plan` is the file that the plan is read from, and closes it. Nothing is printed while it is open:
// where standard error was closed, the file may have its number.
fn mode_of<F: OpenFile + Read + Drop>(mut file: F, plan: Option<Status>) -> Result<u32, Unfit> {
    let Some(status) = status::of(&file) else {
        return Err(Unfit::Irregular);
    };
    if plan.is_some_and(|plan| plan.identity == status.identity) {
        return Err(Unfit::Plan);
    }
    if !status.is_regular() {
        return Err(Unfit::Irregular);
    }
    if !begins_as_sheet(&mut file) {
        return Err(Unfit::Other);
    }
    Ok(status.mode)
}

// Looks at the place where a sheet is to be written, and answers the mode of the older sheet there, if there is one. `plan` is what the plan is read
// from, whose file is never replaced. The place itself is not changed, and is read no further than its first field.
pub fn look<R: Files + Streams>(
    rt: &R,
    path: &[u8],
    plan: &Source<R::File>,
) -> Result<Option<u32>, Failure> {
    // Before anything is opened, since that may take the number of a standard input that is closed.
    let source = status::of_source(rt, plan);
    match paths::open_update(rt, path) {
        Ok(file) => match mode_of(file, source) {
            Ok(mode) => Ok(Some(mode)),
            Err(unfit) => Err(wrong_file(rt, path, unfit.words())),
        },
        Err(e) => match e.raw_os_error() {
            Some(ENOENT) => Ok(None),
            _ => Err(refused_by_system(rt, path, e)),
        },
    }
}

// Says on standard error that an older sheet is there still, where there is one.
pub fn tell_kept<R: Streams>(rt: &R, path: &[u8], older: Option<u32>) {
    if older.is_some() {
        warn(rt, path, b": the older sheet stays as it was");
    }
}

// Writes the bytes of a sheet in place of the older one that `look` saw there, or where it saw none.
pub fn write<R: Files + RandomSource + Alloc + Streams>(
    rt: &R,
    path: &[u8],
    bytes: &[u8],
    older: Option<u32>,
) -> Result<(), Failure> {
    saving::save(rt, path, bytes, older)
}

// Files that are written whole or not at all: the bytes go to a temporary file first, which then takes the name. Where the system refuses, standard
// error says why. What the system does is outside the logic.
use crate::failure::{Failure, refused_by_system};
use crate::paths;
use output::Streams;
use std::fs::{Files, OpenFile, Permissions};
use std::io::Write;
use std::os::unix::fs::PermissionsExt;
use std::random::RandomSource;
use std::{fs, io};

// Gives a new file the mode of the older one that it takes the place of. Where there is none, it keeps the system's usual one.
fn give_mode<F: OpenFile>(file: &F, older: Option<u32>) -> io::Result<()> {
    match older {
        Some(mode) => file.set_permissions(Permissions::from_mode(mode % 4096)),
        None => Ok(()),
    }
}

// Writes all bytes to a new file, down to the device, and closes it.
fn fill<F: OpenFile + Write + Drop>(
    mut file: F,
    bytes: &[u8],
    older: Option<u32>,
) -> io::Result<()> {
    give_mode(&file, older)?;
    file.write_all(bytes)?;
    file.sync_all()
}

// Has the system note on the device what names a folder holds. Not every system can, and the file is whole without it, so nothing depends on it.
fn sync_folder<R: Files>(rt: &R, folder: &[u8]) {
    if let Ok(file) = paths::open(rt, folder) {
        let _ = file.sync_all();
    }
}

// Removes a file, where it can be.
fn remove<R: Files>(rt: &R, name: &[u8]) {
    if let Ok(text) = paths::text(name) {
        let _ = fs::remove_file(rt, text);
    }
}

// Has a file take another name.
fn rename<R: Files>(rt: &R, from: &[u8], to: &[u8]) -> io::Result<()> {
    fs::rename(rt, paths::text(from)?, paths::text(to)?)
}

// Writes the bytes to a new file of the temporary name, and then has that file take the other name.
fn fill_and_rename<R: Files>(
    rt: &R,
    file: R::File,
    temporary: &[u8],
    to: &[u8],
    bytes: &[u8],
    older: Option<u32>,
) -> io::Result<()> {
    fill(file, bytes, older)?;
    rename(rt, temporary, to)
}

// The same with a temporary name of its own. Where any of it fails, standard error says why, and then the temporary file is removed; what had the name has
// it still.
fn write_at<R: Files + RandomSource + Streams>(
    rt: &R,
    to: &[u8],
    bytes: &[u8],
    older: Option<u32>,
) -> Result<(), Failure> {
    let temporary = paths::temporary(rt, to);
    let name = temporary.as_bytes();
    let file = match paths::create(rt, name) {
        Ok(file) => file,
        Err(e) => return Err(refused_by_system(rt, to, e)),
    };
    if let Err(e) = fill_and_rename(rt, file, name, to, bytes, older) {
        let failure = refused_by_system(rt, to, e);
        remove(rt, name);
        return Err(failure);
    }
    sync_folder(rt, paths::folder(to).as_bytes());
    Ok(())
}

// Writes a file of these bytes, in place of the older one of this name and with its mode, if there is one. Where the name is a symbolic link, it stays,
// and the file that it leads to is replaced.
pub fn save<R: Files + RandomSource + Alloc + Streams>(
    rt: &R,
    path: &[u8],
    bytes: &[u8],
    older: Option<u32>,
) -> Result<(), Failure> {
    match paths::followed(rt, path) {
        Ok(target) => write_at(rt, target.as_bytes(), bytes, older),
        Err(e) => Err(refused_by_system(rt, path, e)),
    }
}

// Names of files, put together and followed along symbolic links. What the system says of a link is outside the logic.
ghost use Rattle.std.specs.Prelude.{◌≡◌, ◌⊎◌, ◌≤◌, None, IfOk, IfErr, IsUtf8, length, take};
ghost use Rattle.std.specs.IoError.{raw_os_error};

use crate::buffer::Word;
use std::fs::{Files, OpenOptions};
use std::io::{Error, ErrorKind};
use std::random::RandomSource;
use std::{fs, io};

// The system's errors that a file is not there, that it may not be opened so, that nothing can be written where it is, and that a name is too long.
pub const ENOENT: i32 = 2;

pub const EACCES: i32 = 13;

pub const EROFS: i32 = 30;

const ENAMETOOLONG: i32 = 36;

// How many symbolic links the system itself would follow.
const MAX_LINKS: usize = 40;

// A name in a folder, whose own name ends in a slash or is empty.
fn join(folder: &[u8], name: &[u8]) -> Word {
    Word::new().append(folder).append(name)
}

// The name of the folder that a name is in, up to the last slash; empty where there is none.
fn folder_of(name: &[u8]) -> &[u8]
    ensures { result.now ≡ take (length result.now) name.now }
{
    match name.iter().rposition(|byte| *byte == b'/') {
        Some(slash) => &name[..=slash],
        None => b"",
    }
}

// The name of something in the same folder.
fn beside(path: &[u8], name: &[u8]) -> Word {
    join(folder_of(path), name)
}

// Where the text of a symbolic link leads from the link's own name.
fn read_from(path: &[u8], text: &[u8]) -> Word {
    if text.starts_with(b"/") {
        return join(b"", text);
    }
    beside(path, text)
}

// The name as text, which std's calls want. One of 4,096 bytes or more is refused as the system would.
pub fn text(name: &[u8]) -> io::Result<&str>
    ensures same { IfOk result (λ text. text.now ≡ name.now) }
    ensures refused { IfErr result (λ _. (4096 ≤ length name.now) ⊎ ¬ (IsUtf8 name.now)) }
{
    if 4096 <= name.len() {
        return Err(Error::from_raw_os_error(ENAMETOOLONG));
    }
    match std::str::from_utf8(name) {
        Ok(text) => Ok(text),
        Err(_) => Err(Error::new(ErrorKind::InvalidFilename, "the name is no UTF-8 text")),
    }
}

// Opens a file or a folder for reading.
pub fn open<R: Files>(rt: &R, name: &[u8]) -> io::Result<R::File> {
    fs::open(rt, text(name)?)
}

// Opens a file for reading and writing, and leaves it as it is.
pub fn open_update<R: Files>(rt: &R, name: &[u8]) -> io::Result<R::File> {
    OpenOptions::new()
        .read(true)
        .write(true)
        .open(rt, text(name)?)
}

// Makes a file of this name, which nothing may have yet, and opens it for writing.
pub fn create<R: Files>(rt: &R, name: &[u8]) -> io::Result<R::File> {
    OpenOptions::new()
        .write(true)
        .create_new(true)
        .open(rt, text(name)?)
}

// Where a symbolic link leads, one step, if the name is that of a link. An error, which is not the system's own, stands for a link that can't be
// followed.
fn link<R: Files + Alloc>(rt: &R, path: &[u8]) -> io::Result<Option<Word>>
    ensures not_the_systems { IfErr result (λ e. raw_os_error e ≡ None) }
{
    let Ok(name) = text(path) else {
        return Ok(None);
    };
    match fs::read_link(rt, name) {
        Ok(to) => Ok(Some(read_from(path, to.as_str().as_bytes()))),
        Err(e) => match e.raw_os_error() {
            Some(_) => Ok(None),
            None => Err(e),
        },
    }
}

// The name of the file that a name leads to: symbolic links are followed, as many as the system itself would follow. There is none behind a link whose
// text is no UTF-8, nor where memory runs out.
pub fn followed<R: Files + Alloc>(rt: &R, name: &[u8]) -> io::Result<Word>
    ensures not_the_systems { IfErr result (λ e. raw_os_error e ≡ None) }
{
    let mut path = join(b"", name);
    for _ in 0..MAX_LINKS {
        match link(rt, path.as_bytes())? {
            Some(target) => path = target,
            None => return Ok(path),
        }
    }
    Ok(path)
}

// Sixteen letters that no other program is likely to draw.
fn letters<R: RandomSource>(rt: &R) -> [u8; 16] {
    let mut drawn = [0u8; 16];
    let _ = rt.fill_bytes(&mut drawn);
    for byte in &mut drawn {
        *byte = b'a' + *byte % 16;
    }
    drawn
}

// A name for a temporary file, in the same folder.
pub fn temporary<R: RandomSource>(rt: &R, path: &[u8]) -> Word {
    beside(path, b".planner-")
        .append(&letters(rt))
        .append(b".tmp")
}

// The name of the folder itself.
pub fn folder(path: &[u8]) -> Word {
    beside(path, b".")
}

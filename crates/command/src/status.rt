// Which file is open. Two open files are one where the device and the inode are the same, whatever names they were opened by. What the system answers
// is outside the logic.
use crate::files::Source;
use std::fs;
use std::fs::{Files, Metadata, OpenFile};
use std::os::unix::fs::MetadataExt;

// The kind of a file in its mode, and that of a regular file.
const KIND: u32 = 0o170000;

const REGULAR: u32 = 0o100000;

// What makes a file the one that it is.
#[derive(Clone, Copy, Debug, PartialEq, Eq)]
pub struct Identity {
    pub device: u64,
    pub inode: u64,
}

// What the system tells of an open file.
#[derive(Clone, Copy, Debug)]
pub struct Status {
    pub identity: Identity,
    pub mode: u32,
}

impl From<Metadata> for Status {
    fn from(metadata: Metadata) -> Status {
        Status {
            identity: Identity {
                device: metadata.dev(),
                inode: metadata.ino(),
            },
            mode: metadata.mode(),
        }
    }
}

impl Status {
    // Whether it is a regular file: no folder, no device, no pipe.
    pub fn is_regular(&self) -> bool {
        self.mode & KIND == REGULAR
    }
}

// What the system tells of an open file, if it does.
pub fn of<F: OpenFile>(file: &F) -> Option<Status> {
    file.metadata().ok().map(Status::from)
}

// The same of what bytes are read from. Standard input has no call of its own, and is asked for by the name that the system gives to what it is open on.
pub fn of_source<R: Files>(rt: &R, source: &Source<R::File>) -> Option<Status> {
    match source {
        Source::Input => fs::metadata(rt, "/proc/self/fd/0").ok().map(Status::from),
        Source::File(file) => of(file),
    }
}

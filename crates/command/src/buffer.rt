// Bytes with a room of fixed size: an argument, the name of a file, what was read of a file.
ghost use Rattle.std.specs.Prelude.{◌≡◌, ℕ, ◌≤◌, List, [], ◌++◌, length, take};

use std::io;
use std::io::Read;
use std::marker::Model;

// Reads until the room is full or the source ends, and answers how many bytes of it are filled then. Where a read fails, they are those that came before.
fn fill<S: Read>(room: &mut [u8], source: &mut S) -> (usize, io::Result<()>)
    ensures { result.0 ≤ length room.old }
{
    // How much each read brings is for the system to say, so the size is counted along.
    let mut size = 0;
    while size < room.len() {
        match source.read(&mut room[size..]) {
            Ok(0) => break,
            Ok(more) => size += more,
            Err(e) => return (size, Err(e)),
        }
    }
    (size, Ok(()))
}

// An argument, or the name of a file. One of 4,096 bytes is longer than the system takes as a name, and is refused.
pub type Word = Buffer<4096>;

// What was read of a plan's file. It is longer than any plan, so that a byte too many is seen.
pub type PlanBytes = Buffer<65536>;

// At most N bytes.
#[derive(Drop)]
pub struct Buffer<const N: usize> {
    room: [u8; N],
    size: usize,
}

// Clauses see the bytes.
impl<const N: usize> Model for Buffer<N> {
    ghost Value = { List ℕ };

    ghost view = { λ b. take b.size b.room };

    ghost invariant = { λ b. b.size ≤ N };
}

impl<const N: usize> Buffer<N> {
    pub fn new() -> Buffer<N>
        ensures { result ≡ [] }
    {
        Buffer {
            room: [0; N],
            size: 0,
        }
    }

    // The first bytes of a room.
    pub fn of_room(room: [u8; N], size: usize) -> Buffer<N>
        requires { size ≤ N }
        ensures { result ≡ take size room.entry }
    {
        Buffer { room, size }
    }

    pub fn as_bytes(&self) -> &[u8]
        ensures bytes { result.now ≡ self.now }
        ensures within { length result.now ≤ N }
    {
        &self.room[..self.size]
    }

    // Leaves no bytes.
    pub fn clear(&mut self)
        ensures { self.new ≡ [] }
    {
        self.size = 0;
    }

    // Reads until the room is full or the source ends, in place of these bytes. Where a read fails, the bytes are those that came before it.
    pub fn read_from<S: Read>(&mut self, source: &mut S) -> io::Result<()>
        ensures { length self.new ≤ N }
    {
        let (size, read) = fill(self.room.as_mut_slice(), source);
        self.size = size;
        read
    }

    // These bytes and others behind them, or as many of those as there is room for.
    pub fn append(mut self, more: &[u8]) -> Buffer<N>
        ensures { result ≡ take N (self.entry ++ more.now) }
    {
        let some = more.len().min(N - self.size);
        let end = self.size + some;
        self.room[self.size..end].copy_from_slice(&more[..some]);
        self.size = end;
        self
    }
}

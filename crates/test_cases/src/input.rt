// What programs read: standard input from its start, as far as there is room for it.
ghost use Rattle.std.specs.Prelude.{◌≤◌, length};

use std::io::Read;

// Reads until the buffer is full or the input ends, and answers how many bytes stand at the buffer's start. A read that fails ends the input.
pub fn read_full(rt: &impl Input, buf: &mut [u8]) -> usize
    ensures { result ≤ length buf.new }
{
    let mut input = rt.reader();
    let mut done = 0;
    while let Ok(n @ 1..) = input.read(&mut buf[done..]) {
        done += n;
    }
    done
}

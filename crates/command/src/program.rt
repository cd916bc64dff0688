// How a program begins.
use crate::arguments::Request;
use crate::failure::Failure;
use crate::{arguments, version};
use output::Streams;
use std::env::Env;

// Prints how the program is used or of which version it is, where that is asked, and else does its work. Where it was told wrongly what to do, standard
// error says where to read on.
pub fn start<R: Env + Streams, W: FnOnce(&R) -> Result<(), Failure>>(
    rt: &R,
    program: &[u8],
    usage: &[u8],
    work: W,
)
    requires { W.IsAlwaysCallable work }
{
    match arguments::requested(rt) {
        Request::Usage => output::print(rt, usage),
        Request::Version => version::print(rt, program),
        Request::Work => {
            if let Err(Failure::Misuse) = work(rt) {
                arguments::hint(rt, program);
            }
        }
    }
}

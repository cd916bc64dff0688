// Why a program stops. Standard error has said what is wrong when a value of this type is handed on.
ghost use Rattle.std.specs.Prelude.{◌≡◌};
ghost use Rattle.command.specs.declared.failure.Failure.TheVariants.{Misuse, File};

use output::Streams;
use std::io::Error;

#[derive(Clone, Copy, Debug, PartialEq, Eq)]
pub enum Failure {
    // The arguments are not as they should be.
    Misuse,
    // A file is not as it should be, or the system refused.
    File,
}

// Says on standard error what is wrong with an argument, or with all of them.
pub fn misuse<R: Streams>(rt: &R, of: &[u8], what: &[u8]) -> Failure
    ensures { result ≡ Misuse }
{
    output::warn(rt, of, what);
    Failure::Misuse
}

// Says on standard error what is wrong with a file.
pub fn wrong_file<R: Streams>(rt: &R, name: &[u8], what: &[u8]) -> Failure
    ensures { result ≡ File }
{
    output::warn(rt, name, what);
    Failure::File
}

// Says on standard error why the system refused what was to be done with a file.
pub fn refused_by_system<R: Streams>(rt: &R, name: &[u8], error: Error) -> Failure
    ensures { result ≡ File }
{
    output::fail(rt, name, error);
    Failure::File
}

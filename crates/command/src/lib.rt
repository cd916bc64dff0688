// What the programs have in common.
//
//   program     how a program begins
//   failure     why a program stops
//   decimal     the number that a text writes
//   buffer      bytes with a room of fixed size
//   arguments   the words that a program is started with
//   files       files of bytes that are read
//   status      which file is open
//   saving      files that are written whole or not at all
//   sheets      the file that a route sheet is written to, so that nothing is lost
//   plans       the file that the archive form of a plan is written to, so that nothing is lost
//   paths       names of files, put together and followed along links
//   refusals    the words of the refusal table
//   version     which version of the planner a program is of
//
// What the system hands over is outside the logic: the contracts say what is made of the bytes, and not that they are the user's or the file's.
#![tactic(auto)]

pub mod arguments;
pub mod buffer;
pub mod decimal;
pub mod failure;
pub mod files;
mod paths;
pub mod plans;
pub mod program;
pub mod refusals;
mod saving;
pub mod sheets;
mod status;
pub mod version;

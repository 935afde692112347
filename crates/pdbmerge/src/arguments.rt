//! The arguments that the system gives.

use command_line::{LineFault, WrongWord};
use std::env::{self, Env, FillError};
use std::io::ErrorKind;
use std::rt::HostRuntime;
use std::str::from_utf8;

/// More bytes than an argument has: the system bounds it at 131,072.
const ARGUMENT_LENGTH: usize = 131_072;

/// What is wrong with the first argument that is not UTF-8, if one of the arguments asks for more
/// to be said.
fn odd_word(rt: &HostRuntime) -> Option<WrongWord> {
    let mut buffer = vec![in rt.alloc(); 0u8; ARGUMENT_LENGTH].ok()?;
    let mut odd = None;
    let mut is_verbose = false;
    for position in 1..usize::MAX {
        match rt.arg(position, &mut buffer) {
            Ok(length) => {
                let word = &buffer[..length];
                is_verbose |= word == b"-v".as_slice() || word == b"--verbose".as_slice();
                if odd.is_none() && from_utf8(word).is_err() {
                    odd = Some(WrongWord::NotUtf8(position));
                }
            }
            Err(FillError::TooLong) => {}
            Err(FillError::NotPresent) => break,
        }
    }
    if is_verbose { odd } else { None }
}

/// The arguments of the command line, without the program's name.
pub fn arguments(rt: &HostRuntime) -> Result<Vec<String>, LineFault> {
    match env::args(rt) {
        Ok(args) => Ok(args.skip(1).collect(rt.alloc())?),
        Err(error) if error.kind() == ErrorKind::OutOfMemory => Err(LineFault::Memory),
        // An argument is not UTF-8.
        Err(_) => Err(LineFault::Word(odd_word(rt))),
    }
}

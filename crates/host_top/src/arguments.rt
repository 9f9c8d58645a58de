//! The words that the program was called with.
use net_wire::NoMemory;
use std::env;
use std::io::ErrorKind;
use std::rt::Env;

/// The words behind the program's name: none where they are not all UTF-8.
pub fn program_words<R: Env + AllocGlobal>(rt: &R) -> Result<Vec<String>, NoMemory> {
    match env::args(rt) {
        Ok(args) => args.skip(1).collect(rt.alloc()).map_err(|_| NoMemory),
        Err(error) => {
            if error.kind() == ErrorKind::OutOfMemory {
                Err(NoMemory)
            } else {
                Ok(Vec::new(rt.alloc()))
            }
        }
    }
}

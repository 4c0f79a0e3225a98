//! The words of the command line.
use etp_outside::Status;
use std::rt::Env;
use std::{env, io};

/// The words after the program's name; words that are not UTF-8 make the command line malformed.
pub fn words<R: AllocGlobal + Env>(rt: &R) -> Result<Vec<String>, Status> {
    let args = match env::args(rt) {
        Ok(args) => args,
        Err(error) if error.kind() == io::ErrorKind::OutOfMemory => return Err(Status::NoMemory),
        Err(_) => return Err(Status::Usage),
    };
    let mut words = Vec::new(rt.alloc());
    for word in args.skip(1) {
        if words.push(word).is_err() {
            return Err(Status::NoMemory);
        }
    }
    Ok(words)
}

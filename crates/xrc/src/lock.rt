//! The lock on a site, by which one program works on it at a time.

use crate::failure::Failure;
use anyhow::Context;
use std::fs::{File, OpenOptions, TryLockError};
use std::rt::Files;

/// The file that is locked: each site has it.
const LOCKED: &str = "control";

/// Whether the command of the words only reads, so that others of its kind may work beside it.
fn only_reads(words: &[String]) -> bool {
    match words.first() {
        Some(command) => command.as_str() == "query",
        None => false,
    }
}

/// Locks the site of the current folder for the command of the words, for as long as the file is kept open. It fails at once where
/// another program works on the site. The lock goes with the program, however that ends.
pub fn lock_site<R: Files<File = File>>(rt: &R, words: &[String]) -> Result<File, Failure> {
    let file = OpenOptions::new()
        .read(true)
        .write(true)
        .open(rt, LOCKED)
        .context(format_args!("cannot open {LOCKED}"))?;
    let locked = if only_reads(words) {
        file.try_lock_shared()
    } else {
        file.try_lock()
    };
    match locked {
        Ok(()) => Ok(file),
        Err(TryLockError::WouldBlock) => Err(Failure::Locked),
        Err(TryLockError::Error(error)) => Err(error.into()),
    }
}

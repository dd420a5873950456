//! Why the journal's file couldn't be used: it is looked at again.
use std::fs::{self, File, OpenOptions, TryLockError};
use std::os::unix::fs::OpenOptionsExt;
use std::rt::Files;

/// Tells why the journal of this name couldn't be used.
pub fn tell_journal<R: Files<File = File> + Eprint>(rt: &R, journal: &str) {
    let is_link = match fs::symlink_metadata(rt, journal) {
        Ok(found) => found.is_symlink(),
        Err(_) => false,
    };
    let mut options = OpenOptions::new();
    // (behind a link that leads nowhere no file is made)
    let _ = match options
        .read(true)
        .write(true)
        .create(!is_link)
        .mode(0o600)
        .open(rt, journal)
    {
        Err(error) => eprintln!(rt;
            "{journal} can't be opened: {error}: look at it and at its folder"
        ),
        Ok(file) => match file.try_lock() {
            Err(TryLockError::WouldBlock) => eprintln!(rt;
                "{journal}: another process has it: end that one (`lslocks` names it), and start again"
            ),
            Ok(()) | Err(TryLockError::Error(_)) => eprintln!(rt;
                "{journal}: the disk failed: look at its room and its faults, and start again: nothing is lost"
            ),
        },
    };
}

//! How an archive's file is opened, or made.

use crate::changes::Change;
use crate::database::{Archive, make, rows_of};
use release_archive::KeepEnd;
use std::alloc::Global;
use std::fs;

/// Whether there is a file of this path.
pub(crate) fn is_there(rt: &HostRuntime, path: &str) -> Result<bool, KeepEnd> {
    match fs::exists(rt, path) {
        Ok(is_there) => Ok(is_there),
        Err(_) => Err(KeepEnd::Failed),
    }
}

/// Opens the file, or makes it. One that has no table yet gets them; one of another format, or of
/// another program, is refused and left as it is.
pub(crate) fn open(rt: &HostRuntime, path: &str) -> Result<Archive, KeepEnd> {
    let mut archive = Archive::open(rt, path)?;
    match prepare(rt.alloc(), &mut archive) {
        Ok(()) => Ok(archive),
        Err(end) => Err(end),
    }
}

/// Makes the tables where there is none, and refuses those of another format.
fn prepare(alloc: Global, archive: &mut Archive) -> Result<(), KeepEnd> {
    if rows_of(alloc, archive, "SELECT name FROM sqlite_schema", &[])?.is_empty() {
        make(alloc, archive, Change::Tables)?;
    }
    if is_format_1(alloc, archive)? {
        Ok(())
    } else {
        Err(KeepEnd::Failed)
    }
}

fn is_format_1(alloc: Global, archive: &mut Archive) -> Result<bool, KeepEnd> {
    let rows = rows_of(alloc, archive, "SELECT format FROM archive", &[])?;
    match rows.as_slice() {
        [row] => Ok(matches!(row.get::<u64>(0), Ok(1))),
        _ => Ok(false),
    }
}

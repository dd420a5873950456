//! The database in an archive's file: how it is opened, asked and closed.

use crate::changes::{Change, commit};
use release_archive::KeepEnd;
use sqlite::types::ValueRef;
use sqlite::{Alter, Connection, Error, ErrorCode, File, FileFrom, FileStore, Row, Start};
use std::alloc::Global;

/// The database of an archive.
pub(crate) struct Archive {
    connection: Connection<FileStore<File>>,
}

impl Drop for Archive {
    fn drop(self) {
        let Archive { connection } = self;
        end(connection);
    }
}

impl Archive {
    /// Opens the file, or makes it.
    pub(crate) fn open(rt: &HostRuntime, path: &str) -> Result<Archive, KeepEnd> {
        match Connection::open(rt, path) {
            Ok(connection) => Ok(Archive { connection }),
            Err(error) => Err(end_of(error)),
        }
    }

    /// Closes the file. What was written stands in it, or in the log beside it where it can't be
    /// closed.
    pub(crate) fn close(self) {
        let Archive { connection } = self;
        let _closed = connection.close();
    }
}

/// What is asked of an archive.
enum Call<'a> {
    /// The rows of a query with these values.
    Query(&'a str, &'a [ValueRef<'a>]),
    /// A change, which gives no rows.
    Change(Change<'a>),
}

/// All rows of a query.
pub(crate) fn rows_of(
    alloc: Global,
    archive: &mut Archive,
    query: &str,
    values: &[ValueRef<'_>],
) -> Result<Vec<Row>, KeepEnd> {
    match run(alloc, &mut archive.connection, Call::Query(query, values)) {
        Ok(rows) => Ok(rows),
        Err(error) => Err(end_of(error)),
    }
}

/// Makes a change, or nothing of it.
pub(crate) fn make(
    alloc: Global,
    archive: &mut Archive,
    change: Change<'_>,
) -> Result<(), KeepEnd> {
    match run(alloc, &mut archive.connection, Call::Change(change)) {
        Ok(_) => Ok(()),
        Err(error) => Err(end_of(error)),
    }
}

/// Why the database refused: no memory, or a fault.
pub(crate) fn end_of(error: Error) -> KeepEnd {
    match error {
        Error::SqliteFailure(ErrorCode::OutOfMemory) => KeepEnd::Memory,
        _ => KeepEnd::Failed,
    }
}

/// The rows that a call gives (over any start, so that the file's store is in the types of one call
/// alone).
fn run<S: Start>(
    alloc: Global,
    connection: &mut Connection<FileStore<FileFrom<S>>>,
    call: Call<'_>,
) -> Result<Vec<Row>, Error> {
    answer(alloc, connection, call)
}

/// The same over any store.
fn answer<S: Alter>(
    alloc: Global,
    connection: &mut Connection<S>,
    call: Call<'_>,
) -> Result<Vec<Row>, Error> {
    match call {
        Call::Query(query, values) => connection.query_all(query, values),
        Call::Change(change) => {
            commit(connection, change)?;
            Ok(Vec::new(alloc))
        }
    }
}

/// The end of a connection that isn't closed (over any start, as above).
fn end<S: Start>(_connection: Connection<FileStore<FileFrom<S>>>) {}

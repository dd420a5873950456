//! What is written to an archive's file, each change whole or not at all.

use crate::figures::{FIGURES, figures_of};
use crate::schema::TABLES;
use release_archive::Kept;
use rulebook::System;
use sqlite::types::ValueRef;
use sqlite::{Alter, Connection, Error, ErrorCode, Transaction};

const ADD_RELEASE: &str = "INSERT INTO release (name, qrels) VALUES (?1, ?2)";

const ADD_SYSTEM: &str = "\
INSERT INTO system (release, place, run, group_name, num_q, num_ret, num_rel, num_rel_ret, map, Rprec,
  bpref, recip_rank, P_5, P_10, P_15, P_20, P_30, P_100, P_200, P_500, P_1000)
VALUES (?1, ?2, ?3, ?4, ?5, ?6, ?7, ?8, ?9, ?10,
  ?11, ?12, ?13, ?14, ?15, ?16, ?17, ?18, ?19, ?20, ?21)";

/// What is changed at once.
#[derive(Clone, Copy)]
pub(crate) enum Change<'a> {
    /// The tables are made.
    Tables,
    /// A release is added with its systems.
    Release(&'a Kept),
}

/// Makes a change, or nothing of it.
pub(crate) fn commit<S: Alter>(
    archive: &mut Connection<S>,
    change: Change<'_>,
) -> Result<(), Error> {
    if !archive.is_autocommit() {
        return Err(Error::SqliteFailure(ErrorCode::TransactionState));
    }
    let mut transaction = archive.transaction();
    match write(&mut transaction, change) {
        Ok(()) => transaction.commit(),
        Err(error) => Err(error),
    }
}

fn write<S: Alter>(transaction: &mut Transaction<'_, S>, change: Change<'_>) -> Result<(), Error> {
    match change {
        Change::Tables => transaction.execute_batch(TABLES),
        Change::Release(kept) => insert(transaction, kept),
    }
}

fn insert<S: Alter>(transaction: &mut Transaction<'_, S>, kept: &Kept) -> Result<(), Error> {
    let name = kept.name.bytes();
    let values = [ValueRef::Text(name), ValueRef::Text(kept.qrels.bytes())];
    execute(transaction, ADD_RELEASE, &values)?;
    insert_systems(transaction, name, kept.systems.items())
}

fn insert_systems<S: Alter>(
    transaction: &mut Transaction<'_, S>,
    name: &[u8],
    systems: &[System],
) -> Result<(), Error> {
    let mut place = 0u64;
    for system in systems {
        place = place.saturating_add(1);
        insert_system(transaction, name, place, system)?;
    }
    Ok(())
}

fn insert_system<'a, S: Alter>(
    transaction: &mut Transaction<'_, S>,
    name: &'a [u8],
    place: u64,
    system: &'a System,
) -> Result<(), Error> {
    let mut values: [ValueRef<'a>; 4 + FIGURES] = [ValueRef::Null; 4 + FIGURES];
    values[0] = ValueRef::Text(name);
    values[1] = number(place)?;
    values[2] = ValueRef::Text(system.run.bytes());
    values[3] = ValueRef::Text(system.group.bytes());
    put_figures(&mut values[4..], &figures_of(&system.summary))?;
    execute(transaction, ADD_SYSTEM, &values)
}

fn execute<S: Alter>(
    transaction: &mut Transaction<'_, S>,
    statement: &str,
    values: &[ValueRef<'_>],
) -> Result<(), Error> {
    match transaction.execute(statement, values) {
        Ok(_) => Ok(()),
        Err(error) => Err(error),
    }
}

fn put_figures(values: &mut [ValueRef<'_>], figures: &[u64]) -> Result<(), Error> {
    for (value, figure) in values.iter_mut().zip(figures) {
        *value = number(*figure)?;
    }
    Ok(())
}

/// A whole number of the database; one past 2^63 has none.
fn number(value: u64) -> Result<ValueRef<'static>, Error> {
    match i64::try_from(value) {
        Ok(value) => Ok(ValueRef::Int(value)),
        Err(_) => Err(Error::SqliteFailure(ErrorCode::TooBig)),
    }
}

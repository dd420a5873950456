//! The releases of an archive as CSV, one record for each system.
ghost use Rattle.std.specs.Prelude.{◌≡◌, ◌++◌, ◌∷◌, [], IfOk, IsTrue, OnOk, OnErr, map};
ghost use Rattle.std.specs.List.{list_all};
ghost use Rattle.std.specs.Io.KnownBytes.{Appends};
ghost use Rattle.release_archive.specs.Releases.{is_sound};
ghost use Rattle.rulebook.specs.Reports.Systems.{is_sound_system};
ghost use Rattle.archive_reports.specs.Exports.{IsBetweenRecords, ReadsAs, Writes, csv_header, csv_records, csv_text, release_rows, rows_in, system_row};
ghost use Rattle.archive_reports.specs.Orders.{releases_behind};

use crate::orders::by_name;
use csv::Writer;
use decimal_rank::Memory;
use itoa::Buffer as Digits;
use measures::write_four;
use release_archive::Kept;
use rulebook::System;
use std::alloc::Global;

/// Appends the releases as CSV: a record of the names of the fields, and then one for each system,
/// by the releases' names, equal names in the order of `all`. The map has four decimals.
pub fn write_csv(alloc: Global, all: &[Kept], out: &mut Vec<u8>) -> Result<(), Memory>
    requires { IsTrue (list_all is_sound all.now) }
    ensures text { OnOk result (out.new.items ≡ out.old.items ++ csv_text (csv_records all.now)) }
    ensures reads { OnOk result (ReadsAs (csv_text (csv_records all.now)) (csv_records all.now)) }
    ensures same { OnErr result (out.new.items ≡ out.old.items) }
{
    let text = csv_of(alloc, &by_name(alloc, all)?)?;
    out.extend_from_slice(&text)?;
    Ok(())
}

fn csv_of(alloc: Global, releases: &[&Kept]) -> Result<Vec<u8>, Memory>
    requires { IsTrue (list_all is_sound (releases_behind releases.now)) }
    ensures { IfOk result (λ text. text.items ≡ csv_text (rows_in (releases_behind releases.now))) }
{
    let mut writer = Writer::from_writer(Vec::new(alloc));
    write_row(
        &mut writer,
        &[b"campaign", b"run", b"group", b"topics", b"map"],
    )?;
    for kept in releases {
        write_release(alloc, &mut writer, kept)?;
    }
    match writer.into_inner() {
        Ok(text) => Ok(text),
        Err(_) => Err(Memory),
    }
}

fn write_release(alloc: Global, writer: &mut Writer<Vec<u8>>, kept: &Kept) -> Result<(), Memory>
    requires between { IsBetweenRecords writer.old }
    requires sound { IsTrue (is_sound kept.now) }
    ensures { OnOk result (Writes writer.old writer.new (csv_text (release_rows kept.now))) }
{
    for system in kept.systems.items() {
        write_system(alloc, writer, kept.name.bytes(), system)?;
    }
    Ok(())
}

fn write_system(
    alloc: Global,
    writer: &mut Writer<Vec<u8>>,
    name: &[u8],
    system: &System,
) -> Result<(), Memory>
    requires between { IsBetweenRecords writer.old }
    requires sound { IsTrue (is_sound_system system.now) }
    ensures { OnOk result
        (Writes writer.old writer.new (csv_text (system_row name.now system.now ∷ []))) }
{
    let mut map = Vec::new(alloc);
    write_four(system.summary.map, &mut map)?;
    write_row(
        writer,
        &[
            name,
            system.run.bytes(),
            system.group.bytes(),
            Digits::new().format(system.summary.topics).as_bytes(),
            &map,
        ],
    )
}

fn write_row(writer: &mut Writer<Vec<u8>>, fields: &[&[u8]]) -> Result<(), Memory>
    requires between { IsBetweenRecords writer.old }
    ensures { OnOk result
        (Writes writer.old writer.new (csv_text (map (λ field. field.now) fields.now ∷ []))) }
{
    match writer.write_fields(fields) {
        Ok(()) => Ok(()),
        Err(_) => Err(Memory),
    }
}

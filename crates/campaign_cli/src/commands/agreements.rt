//! What `agreement` prints: how the assessors of a campaign agree.
ghost use Rattle.std.specs.Prelude.{◌≡◌, ◌++◌, IfOk, OnOk};
ghost use Rattle.std.specs.List.{flat_map};
ghost use Rattle.campaign_cli.specs.ShownTexts.{agreed_line, agreement_text};

use crate::printing::{add_count, add_number};
use book::{Book, Disk};
use decimal_rank::Memory;
use leave_out::{Agreed, agreement};
use std::alloc::Global;

/// A line for each topic whose documents need two labels, by id.
pub(crate) fn agreement_text<D: Disk>(alloc: Global, book: &Book<D>) -> Result<Vec<u8>, Memory>
    ensures { IfOk result (λ text. text.items ≡ agreement_text book.now.history) }
{
    let rows = agreement(alloc, book.state())?;
    let text = agreed_lines(alloc, &rows)?;
    Ok(text)
}

fn agreed_lines(alloc: Global, rows: &[Agreed]) -> Result<Vec<u8>, Memory>
    ensures { IfOk result (λ text. text.items ≡ flat_map agreed_line rows.now) }
{
    let mut text = Vec::new(alloc);
    for row in rows {
        add_agreed(row, &mut text)?;
    }
    Ok(text)
}

fn add_agreed(row: &Agreed, text: &mut Vec<u8>) -> Result<(), Memory>
    ensures { OnOk result (text.new.items ≡ text.old.items ++ agreed_line row.now) }
{
    text.extend_from_slice(row.topic.bytes())?;
    add_number(b" ", u64::from(row.pairs), text)?;
    add_number(b" ", u64::from(row.equal), text)?;
    add_number(b" ", u64::from(row.both), text)?;
    add_count(b" ", u64::from(row.either), text)?;
    Ok(())
}

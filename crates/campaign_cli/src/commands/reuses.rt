//! What `reuse` prints: how the runs of a campaign would score without what their own groups alone
//! brought in.
ghost use Rattle.std.specs.Prelude.{◌≡◌, ◌++◌, IfOk, IsTrue, OnOk};
ghost use Rattle.std.specs.List.{flat_map, list_all};
ghost use Rattle.leave_out.specs.Reuse.{are_reused_means};
ghost use Rattle.campaign_cli.specs.ShownTexts.{reuse_line, reuse_text};

use crate::printing::add_number;
use book::{Book, Disk};
use decimal_rank::Memory;
use leave_out::{Reused, reuse};
use measures::write_four;
use std::alloc::Global;

/// A line for each live run, by submission.
pub(crate) fn reuse_text<D: Disk>(alloc: Global, book: &Book<D>) -> Result<Vec<u8>, Memory>
    ensures { IfOk result (λ text. text.items ≡ reuse_text book.now.history) }
{
    let rows = reuse(alloc, book.state())?;
    let text = reused_lines(alloc, &rows)?;
    Ok(text)
}

fn reused_lines(alloc: Global, rows: &[Reused]) -> Result<Vec<u8>, Memory>
    requires { IsTrue (list_all are_reused_means rows.now) }
    ensures { IfOk result (λ text. text.items ≡ flat_map reuse_line rows.now) }
{
    let mut text = Vec::new(alloc);
    for row in rows {
        add_reused(row, &mut text)?;
    }
    Ok(text)
}

fn add_reused(row: &Reused, text: &mut Vec<u8>) -> Result<(), Memory>
    requires { IsTrue (are_reused_means row.now) }
    ensures { OnOk result (text.new.items ≡ text.old.items ++ reuse_line row.now) }
{
    text.extend_from_slice(row.run.bytes())?;
    add_number(b"\t", u64::from(row.unique), text)?;
    text.extend_from_slice(b"\t")?;
    write_four(row.full, text)?;
    text.extend_from_slice(b"\t")?;
    write_four(row.reduced, text)?;
    text.extend_from_slice(b"\n")?;
    Ok(())
}

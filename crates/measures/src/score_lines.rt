//! The lines in which scores are printed: 16 of a cell, and 17 of a summary. A value has four
//! decimals.
ghost use Rattle.std.specs.Prelude.{◌≡◌, ◌^◌, ◌≤◌, ◌++◌, All, OnOk, OnErr, length, map};
ghost use Rattle.measures.specs.Cells.{IsSound};
ghost use Rattle.measures.specs.Means.{IsProper};
ghost use Rattle.measures.specs.ScoreLines.{four_decimals, line_start, count_line, value_line, count_lines, value_lines, cell_text, summary_text};

use crate::cells::Cell;
use crate::means::{NAMES, Summary, means_in, values_of};
use decimal_rank::Memory;
use itoa::Buffer;

/// Appends a value in units of 10^-15 with four decimals, rounded half upwards.
#[tactic(auto, using(std::proofs::lemmas::Fmt::decimal_digit))]
pub fn write_four(value: u64, out: &mut Vec<u8>) -> Result<(), Memory>
    requires { value ≤ 10 ^ 15 }
    ensures ok { OnOk result (out.new.items ≡ out.old.items ++ four_decimals value) }
    ensures err { OnErr result (out.new.items ≡ out.old.items) }
{
    let steps = (value + 50_000_000_000) / 100_000_000_000;
    let text = [
        b'0' + (steps / 10_000) as u8,
        b'.',
        b'0' + (steps / 1_000 % 10) as u8,
        b'0' + (steps / 100 % 10) as u8,
        b'0' + (steps / 10 % 10) as u8,
        b'0' + (steps % 10) as u8,
    ];
    out.extend_from_slice(&text)?;
    Ok(())
}

/// Appends the 16 lines of a cell. On want of memory nothing is appended.
#[tactic(auto, using(std::proofs::lemmas::Grind::common_steps), unfolding(crate::specs::ScoreLines::cell_text))]
pub fn write_cell(run: &[u8], topic: &[u8], cell: &Cell, out: &mut Vec<u8>) -> Result<(), Memory>
    requires { IsSound cell.now }
    ensures ok { OnOk result
        (out.new.items ≡ out.old.items ++ cell_text run.now topic.now cell.now) }
    ensures err { OnErr result (out.new.items ≡ out.old.items) }
{
    let mut lines = Vec::new(*out.allocator());
    let (ret, rel, rel_ret) = (cell.ret as u64, cell.rel as u64, cell.rel_ret as u64);
    write_counts(run, topic, ret, rel, rel_ret, &mut lines)?;
    write_values(run, topic, &NAMES, &values_of(cell), &mut lines)?;
    out.extend_from_slice(&lines)?;
    Ok(())
}

/// Appends the 17 lines of a summary, with topic `all`. On want of memory nothing is appended.
#[tactic(auto, using(std::proofs::lemmas::Grind::common_steps), unfolding(crate::specs::ScoreLines::summary_text))]
pub fn write_summary(run: &[u8], summary: &Summary, out: &mut Vec<u8>) -> Result<(), Memory>
    requires { IsProper summary.now }
    ensures ok { OnOk result (out.new.items ≡ out.old.items ++ summary_text run.now summary.now) }
    ensures err { OnErr result (out.new.items ≡ out.old.items) }
{
    let mut page = Vec::new(*out.allocator());
    write_count(run, b"all", b"num_q", summary.topics as u64, &mut page)?;
    write_counts(
        run,
        b"all",
        summary.ret,
        summary.rel,
        summary.rel_ret,
        &mut page,
    )?;
    write_values(run, b"all", &NAMES, &means_in(summary), &mut page)?;
    out.extend_from_slice(&page)?;
    Ok(())
}

#[tactic(auto, using(std::proofs::lemmas::Grind::common_steps), unfolding(crate::specs::ScoreLines::count_lines))]
fn write_counts(
    run: &[u8],
    topic: &[u8],
    ret: u64,
    rel: u64,
    rel_ret: u64,
    page: &mut Vec<u8>,
) -> Result<(), Memory>
    ensures { OnOk result
        (page.new.items ≡ page.old.items ++ count_lines run.now topic.now ret rel rel_ret) }
{
    write_count(run, topic, b"num_ret", ret, page)?;
    write_count(run, topic, b"num_rel", rel, page)?;
    write_count(run, topic, b"num_rel_ret", rel_ret, page)?;
    Ok(())
}

/// Appends a line for each name, with the value at its place.
fn write_values(
    run: &[u8],
    topic: &[u8],
    names: &[&[u8]],
    values: &[u64],
    page: &mut Vec<u8>,
) -> Result<(), Memory>
    requires same { length names.now ≡ length values.now }
    requires within { All (λ value. value ≤ 10 ^ 15) values.now }
    ensures { OnOk result (page.new.items ≡ page.old.items
        ++ value_lines run.now topic.now (map (λ name. name.now) names.now) values.now) }
{
    for place in 0..names.len() {
        write_value(run, topic, names[place], values[place], page)?;
    }
    Ok(())
}

fn write_count(
    run: &[u8],
    topic: &[u8],
    measure: &[u8],
    count: u64,
    page: &mut Vec<u8>,
) -> Result<(), Memory>
    ensures { OnOk result
        (page.new.items ≡ page.old.items ++ count_line run.now topic.now measure.now count) }
{
    write_line_start(run, topic, measure, page)?;
    page.extend_from_slice(Buffer::new().format(count).as_bytes())?;
    page.extend_from_slice(b"\n")?;
    Ok(())
}

fn write_value(
    run: &[u8],
    topic: &[u8],
    measure: &[u8],
    value: u64,
    page: &mut Vec<u8>,
) -> Result<(), Memory>
    requires { value ≤ 10 ^ 15 }
    ensures { OnOk result
        (page.new.items ≡ page.old.items ++ value_line run.now topic.now measure.now value) }
{
    write_line_start(run, topic, measure, page)?;
    write_four(value, page)?;
    page.extend_from_slice(b"\n")?;
    Ok(())
}

/// Appends what stands before the value of a line.
fn write_line_start(
    run: &[u8],
    topic: &[u8],
    measure: &[u8],
    page: &mut Vec<u8>,
) -> Result<(), Memory>
    ensures { OnOk result
        (page.new.items ≡ page.old.items ++ line_start run.now topic.now measure.now) }
{
    page.extend_from_slice(run)?;
    page.extend_from_slice(b"\t")?;
    page.extend_from_slice(topic)?;
    page.extend_from_slice(b"\t")?;
    page.extend_from_slice(measure)?;
    page.extend_from_slice(b"\t")?;
    Ok(())
}

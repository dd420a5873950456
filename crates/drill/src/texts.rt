//! The topics and the runs of a generated campaign as texts.
ghost use Rattle.std.specs.Prelude.{◌≡◌, ◌≤◌, ◌++◌, IsTrue, OnOk, decimal};
ghost use Rattle.drill.specs.Figures.{are_numbers, most_docs, most_runs, most_topics};
ghost use Rattle.drill.specs.Texts.{line, list_text, place_text, run_text, score_text, topic_text, topics_text};

use crate::figures::{score_of, write_doc_name, write_run_name, write_topic_name};
use crate::numbers::DrillNumbers;
use decimal_rank::Memory;
use itoa::Buffer as Digits;

/// Appends the topics.
pub(crate) fn write_topics(numbers: &DrillNumbers, out: &mut Vec<u8>) -> Result<(), Memory>
    requires { IsTrue (are_numbers numbers.now) }
    ensures { OnOk result (out.new.items ≡ out.old.items ++ topics_text numbers.now) }
{
    for before in 0..numbers.topics {
        write_topic(before + 1, out)?;
    }
    Ok(())
}

fn write_topic(t: u32, out: &mut Vec<u8>) -> Result<(), Memory>
    ensures { OnOk result (out.new.items ≡ out.old.items ++ topic_text t) }
{
    out.extend_from_slice(b"<top>\n<num> ")?;
    write_topic_name(t, out)?;
    out.extend_from_slice(b"\n<title> ")?;
    write_topic_name(t, out)?;
    out.extend_from_slice(b"\n</top>\n")?;
    Ok(())
}

/// Appends the lines of a run, by topic.
pub(crate) fn write_run(numbers: &DrillNumbers, r: u32, out: &mut Vec<u8>) -> Result<(), Memory>
    requires numbers { IsTrue (are_numbers numbers.now) }
    requires run { r ≤ most_runs }
    ensures { OnOk result (out.new.items ≡ out.old.items ++ run_text numbers.now r) }
{
    for before in 0..numbers.topics {
        write_list(numbers, r, before + 1, out)?;
    }
    Ok(())
}

/// Appends the lines of a run on a topic, by document.
fn write_list(numbers: &DrillNumbers, r: u32, t: u32, out: &mut Vec<u8>) -> Result<(), Memory>
    requires numbers { IsTrue (are_numbers numbers.now) }
    requires run { r ≤ most_runs }
    requires topic { t ≤ most_topics }
    ensures { OnOk result (out.new.items ≡ out.old.items ++ list_text numbers.now r t) }
{
    for before in 0..numbers.docs {
        write_line(numbers, r, t, before + 1, out)?;
    }
    Ok(())
}

fn write_line(
    numbers: &DrillNumbers,
    r: u32,
    t: u32,
    d: u32,
    out: &mut Vec<u8>,
) -> Result<(), Memory>
    requires run { r ≤ most_runs }
    requires topic { t ≤ most_topics }
    requires doc { d ≤ most_docs }
    ensures { OnOk result (out.new.items ≡ out.old.items ++ line numbers.now r t d) }
{
    write_place(t, d, out)?;
    write_score(score_of(numbers, r, t, d), r, out)
}

/// Appends the topic and the docno of a line.
fn write_place(t: u32, d: u32, out: &mut Vec<u8>) -> Result<(), Memory>
    ensures { OnOk result (out.new.items ≡ out.old.items ++ place_text t d) }
{
    write_topic_name(t, out)?;
    out.extend_from_slice(b" Q0 ")?;
    write_doc_name(d, out)?;
    out.extend_from_slice(b" 0 ")?;
    Ok(())
}

/// Appends the score and the name of the run of a line.
fn write_score(score: u64, r: u32, out: &mut Vec<u8>) -> Result<(), Memory>
    ensures { OnOk result (out.new.items ≡ out.old.items ++ score_text score r) }
{
    write_number(score, out)?;
    out.extend_from_slice(b" ")?;
    write_run_name(r, out)?;
    out.extend_from_slice(b"\n")?;
    Ok(())
}

/// Appends a number in decimal.
pub(crate) fn write_number(number: u64, out: &mut Vec<u8>) -> Result<(), Memory>
    ensures { OnOk result (out.new.items ≡ out.old.items ++ decimal number) }
{
    out.extend_from_slice(Digits::new().format(number).as_bytes())?;
    Ok(())
}

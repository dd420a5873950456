//! The names, the scores and the grades of a generated campaign.
ghost use Rattle.std.specs.Prelude.{◌≡◌, ◌≤◌, ◌∷◌, ◌++◌, OnOk};
ghost use Rattle.drill.specs.Figures.{doc_name, drill_grade, most_docs, most_runs, most_topics, run_name, score_of, three_digits, topic_name};

use crate::numbers::DrillNumbers;
use decimal_rank::Memory;

/// Appends the name of a topic.
pub(crate) fn write_topic_name(t: u32, out: &mut Vec<u8>) -> Result<(), Memory>
    ensures { OnOk result (out.new.items ≡ out.old.items ++ topic_name t) }
{
    write_name(b'T', t, out)
}

/// Appends the name of a run.
pub(crate) fn write_run_name(r: u32, out: &mut Vec<u8>) -> Result<(), Memory>
    ensures { OnOk result (out.new.items ≡ out.old.items ++ run_name r) }
{
    write_name(b'R', r, out)
}

/// Appends a letter and the three lowest digits of a number.
#[tactic(auto, using(std::proofs::lemmas::Fmt::decimal_digit))]
fn write_name(letter: u8, number: u32, out: &mut Vec<u8>) -> Result<(), Memory>
    ensures { OnOk result (out.new.items ≡ out.old.items ++ letter ∷ three_digits number) }
{
    let name = [
        letter,
        b'0' + (number / 100 % 10) as u8,
        b'0' + (number / 10 % 10) as u8,
        b'0' + (number % 10) as u8,
    ];
    out.extend_from_slice(&name)?;
    Ok(())
}

/// Appends the docno of a document.
#[tactic(auto, using(std::proofs::lemmas::Fmt::decimal_digit))]
pub(crate) fn write_doc_name(d: u32, out: &mut Vec<u8>) -> Result<(), Memory>
    ensures { OnOk result (out.new.items ≡ out.old.items ++ doc_name d) }
{
    let name = [
        b'D',
        b'0' + (d / 1_000 % 10) as u8,
        b'0' + (d / 100 % 10) as u8,
        b'0' + (d / 10 % 10) as u8,
        b'0' + (d % 10) as u8,
    ];
    out.extend_from_slice(&name)?;
    Ok(())
}

/// The score of a document in a run on a topic.
pub(crate) fn score_of(numbers: &DrillNumbers, r: u32, t: u32, d: u32) -> u64
    requires r { r ≤ most_runs }
    requires t { t ≤ most_topics }
    requires d { d ≤ most_docs }
    ensures { result ≡ score_of numbers.now r t d }
{
    let (seed, r, t, d) = (
        u64::from(numbers.seed),
        u64::from(r),
        u64::from(t),
        u64::from(d),
    );
    (31 * seed + 17 * r + 13 * t + d * (r + 6)) % 101
}

/// The grade of a document of a topic.
pub(crate) fn grade_of(numbers: &DrillNumbers, t: u32, d: u32) -> u64
    requires t { t ≤ most_topics }
    ensures { result ≡ drill_grade numbers.now t d }
{
    (u64::from(numbers.seed) + 5 * u64::from(t) + 3 * u64::from(d)) % 4
}

//! Runs and qrels, read and ranked.
use crate::faults::is_fault;
use crate::readings::{lists_read, qrels_of, run_of, short, table_of};
use decimal_rank::{Decimal, Memory};
use std::alloc::Global;
use std::cmp::Ordering;
use std::fmt::Write;
use std::process::Abort;
use std::test::Fail;
use trec_formats::{
    Docnos, FormatEnd, Kind, QrelLine, QrelTable, RunLine, TopicList, rank_run, read_run,
};

/// The grades of three documents on a topic.
fn grades_on(alloc: Global, table: &QrelTable<'_>, topic: &str) -> Result<Vec<Option<u8>>, Memory> {
    let mut docs = Docnos::new(alloc);
    docs.push(b"A")?;
    docs.push(b"B")?;
    docs.push(b"C")?;
    table.grades(alloc, topic.as_bytes(), &docs)
}

fn lists_of(alloc: Global, text: &str) -> Result<Vec<TopicList>, FormatEnd> {
    let lines = read_run(alloc, short(text.as_bytes())?)?;
    rank_run(alloc, lines.as_slice())
}

/// The lists of a text as they are read at once, and as its lines are ranked.
fn both_lists(alloc: Global, text: &str) -> [Result<Vec<TopicList>, FormatEnd>; 2] {
    [lists_read(alloc, text), lists_of(alloc, text)]
}

fn is_score(score: &Decimal, wanted: &str) -> bool {
    match Decimal::read(wanted.as_bytes()) {
        Ok(wanted) => score.compare(&wanted) == Ordering::Equal,
        Err(_) => false,
    }
}

fn is_run_line(line: &RunLine, wanted: &(u32, &str, &str, &str)) -> bool {
    line.line == wanted.0
        && line.topic.bytes() == wanted.1.as_bytes()
        && line.doc.bytes() == wanted.2.as_bytes()
        && is_score(&line.score, wanted.3)
}

fn are_run_lines(lines: &[RunLine], wanted: &[(u32, &str, &str, &str)]) -> bool {
    lines.len() == wanted.len()
        && lines
            .iter()
            .zip(wanted)
            .all(|(line, wanted)| is_run_line(line, wanted))
}

fn is_qrel_line(line: &QrelLine, wanted: &(u32, &str, &str, u8)) -> bool {
    line.line == wanted.0
        && line.topic.bytes() == wanted.1.as_bytes()
        && line.doc.bytes() == wanted.2.as_bytes()
        && line.grade == wanted.3
}

fn are_qrel_lines(lines: &[QrelLine], wanted: &[(u32, &str, &str, u8)]) -> bool {
    lines.len() == wanted.len()
        && lines
            .iter()
            .zip(wanted)
            .all(|(line, wanted)| is_qrel_line(line, wanted))
}

/// Whether the first docnos are these.
fn begin_with(docs: &Docnos, wanted: &[&str]) -> bool {
    for place in 0..wanted.len() {
        if docs.len() <= place || docs.at(place) != wanted[place].as_bytes() {
            return false;
        }
    }
    true
}

pub fn is_list(list: &TopicList, topic: &str, line: u32, docs: &[&str]) -> bool {
    list.topic.bytes() == topic.as_bytes()
        && list.line == line
        && list.docs.len() == docs.len()
        && begin_with(&list.docs, docs)
}

#[test]
fn runs_are_read(rt: HostRuntime) -> Result<(), Fail> {
    let lines = run_of(rt.alloc(), "1 Q0 A 1 3 t\n1 Q0 B 2 2 t\n1 Q0 C 3 1 t\n")?;
    let wanted = [(1, "1", "A", "3"), (2, "1", "B", "2"), (3, "1", "C", "1")];
    assert!(rt; are_run_lines(&lines, &wanted));

    // white space of every kind, lines of it alone, lines of a topic apart, and no line feed at the
    // end
    let lines = run_of(
        rt.alloc(),
        "\n \t\n401\x0bQ0\tFR940-1~\x0c 7  010 x \r\nb.c_D-9 ? ! ? 999999999999999999 ?\r\n\r\n401 0 a 0 0 0",
    )?;
    let wanted = [
        (3, "401", "FR940-1~", "10"),
        (4, "b.c_D-9", "!", "999999999999999999"),
        (6, "401", "a", "0"),
    ];
    assert!(rt; are_run_lines(&lines, &wanted));
    Ok(())
}

/// Adds a thousand lines of two topics each, the first by rising and the second by equal scores.
fn add_thousands(text: &mut String) -> Result<(), Fail> {
    for doc in 1..1001 {
        writeln!(text, "1 Q0 D{doc} 1 {doc} t")?;
        writeln!(text, "2 Q0 D{doc} 1 7 t")?;
    }
    Ok(())
}

fn are_thousands(lists: &[TopicList]) -> bool {
    lists.len() == 2
        && lists.iter().all(|list| list.docs.len() == 1000)
        && begin_with(&lists[0].docs, &["D1000", "D999"])
        && begin_with(&lists[1].docs, &["D999", "D998"])
}

#[test]
fn a_topic_has_a_thousand_lines(rt: HostRuntime) -> Result<(), Fail> {
    let mut text = String::new(rt.alloc());
    add_thousands(&mut text)?;
    assert!(rt; are_thousands(&lists_of(rt.alloc(), text.as_str())?));
    writeln!(text, "1 Q0 D1001 1 1 t")?;
    assert!(rt; is_fault(run_of(rt.alloc(), text.as_str()).err(), 2001, Kind::TooLong));
    Ok(())
}

#[test]
fn qrels_are_read(rt: HostRuntime) -> Result<(), Fail> {
    let lines = qrels_of(
        rt.alloc(),
        "1 0 A 1\n1 0 B 0\n\n2\t0 A\r\t0255 \r\n  1 x d 007",
    )?;
    let wanted = [
        (1, "1", "A", 1),
        (2, "1", "B", 0),
        (4, "2", "A", 255),
        (5, "1", "d", 7),
    ];
    assert!(rt; are_qrel_lines(&lines, &wanted));
    Ok(())
}

fn are_three_lists(lists: &[TopicList]) -> bool {
    lists.len() == 3
        && is_list(&lists[0], "1", 8, &["A"])
        && is_list(&lists[1], "10", 3, &["y", "x", "xx"])
        && is_list(&lists[2], "2", 2, &["C", "B", "A"])
}

#[test]
fn lists_are_ranked(rt: HostRuntime) -> Result<(), Fail> {
    // ranks and order of lines don't count; equal scores stand by descending docno
    let text =
        "\n2 Q0 A 1 5 t\n10 Q0 x 1 1 t\n2 Q0 C 2 9 t\n10 Q0 y 9 1 t\n2 Q0 B 3 05 t\n10 Q0 xx 0 0 t\n1 Q0 A 1 1 t\n";
    for lists in both_lists(rt.alloc(), text) {
        assert!(rt; are_three_lists(&lists?));
    }
    Ok(())
}

#[test]
fn a_document_stands_once(rt: HostRuntime) {
    let twice = "1 Q0 A 1 3 t\n2 Q0 A 1 3 t\n1 Q0 B 2 2 t\n1 Q0 A 3 1 t\n";
    assert!(rt; run_of(rt.alloc(), twice).err() == None);

    // the least line of all topics is told, whatever their order
    let of_two = "2 Q0 A 1 3 t\n1 Q0 A 1 3 t\n\n2 Q0 A 2 2 t\n1 Q0 A 3 1 t\n";
    for text in [twice, of_two] {
        for lists in both_lists(rt.alloc(), text) {
            assert!(rt; is_fault(lists.err(), 4, Kind::Twice { first: 1 }));
        }
    }
}

/// Whether these are the grades of three documents on a topic.
fn have_grades(
    alloc: Global,
    table: &QrelTable<'_>,
    topic: &str,
    wanted: &[Option<u8>],
) -> Result<bool, Memory> {
    let grades = grades_on(alloc, table, topic)?;
    Ok(grades.as_slice() == wanted)
}

#[test]
fn grades_are_found_by_topic_and_docno(rt: HostRuntime) -> Result<(), Fail> {
    let table = table_of(rt.alloc(), "1 0 A 1\n2 0 A 0\n1 0 B 3\n")?;
    expect_grades(&rt, rt.alloc(), &table)
}

fn expect_grades(rt: &impl Abort, alloc: Global, table: &QrelTable<'_>) -> Result<(), Fail> {
    let cases = [
        ("1", [Some(1), Some(3), None]),
        ("2", [Some(0), None, None]),
        ("3", [None, None, None]),
    ];
    for (topic, wanted) in cases {
        assert!(rt; have_grades(alloc, table, topic, &wanted)?);
    }
    assert!(rt; table.lines().len() == 3);
    Ok(())
}

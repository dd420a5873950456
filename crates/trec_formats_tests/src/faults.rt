//! Tried are the faults of runs, qrels and topics texts, each at its line.
use crate::readings::{qrels_of, run_of, topics_of};
use decimal_rank::DecimalFault;
use std::alloc::Global;
use trec_formats::{FormatEnd, FormatFault, Kind};

/// Whether a reading ended with this fault.
pub fn is_fault(end: Option<FormatEnd>, line: u32, kind: Kind) -> bool {
    end == Some(FormatEnd::Fault(FormatFault { line, kind }))
}

const FAULTS_OF_RUNS: [(&str, u32, Kind); 15] = [
    // no line with a field
    ("", 0, Kind::Empty),
    ("\n", 0, Kind::Empty),
    (" \t\x0b\x0c\r\n\r\n", 0, Kind::Empty),
    // five fields, and seven
    ("1 Q0 A 1 3 t\n1 Q0 B 2 2\n", 2, Kind::Fields),
    ("1 Q0 A 1 3 t u\n", 1, Kind::Fields),
    // topics that are no names
    ("a/b Q0 A 1 3 t\n", 1, Kind::Topic),
    (
        "\n\n123456789012345678901234567890123 Q0 A 1 3 t\n",
        3,
        Kind::Topic,
    ),
    // docnos of other bytes, or of 65
    ("1 Q0 \x7f 1 3 t\n", 1, Kind::Docno),
    ("1 Q0 \u{e9} 1 3 t\n", 1, Kind::Docno),
    (
        "1 Q0 12345678901234567890123456789012345678901234567890123456789012345 1 3 t\n",
        1,
        Kind::Docno,
    ),
    // a good line before, and one behind
    (
        "1 Q0 A 1 3 t\n1 Q0 B 2 x t\n1 Q0 C 3 1 t\n",
        2,
        Kind::Score(DecimalFault::Shape),
    ),
    // of two faults on a line the one that stands first
    ("a/b Q0 \x7f 1 x t\n", 1, Kind::Topic),
    ("1 Q0 \x7f 1 x t\n", 1, Kind::Docno),
    // of two lines the first, and a fault before a repeat
    (
        "1 Q0 A 1 x t\n1 Q0 B\n",
        1,
        Kind::Score(DecimalFault::Shape),
    ),
    ("1 Q0 A 1 3 t\n1 Q0 A 1 3 t\n1 Q0 B\n", 3, Kind::Fields),
];

const FAULTS_OF_QRELS: [(&str, u32, Kind); 14] = [
    ("", 0, Kind::Empty),
    ("\r\n\x0b", 0, Kind::Empty),
    // three fields, and five
    ("1 0 A\n", 1, Kind::Fields),
    ("1 0 A 1 1\n", 1, Kind::Fields),
    // a topic that is no name, a docno of other bytes
    ("\na*b 0 A 1\n", 2, Kind::Topic),
    ("1 0 \u{e9} 1\n", 1, Kind::Docno),
    // grades that aren't digits alone, or above 255
    ("1 0 A -1\n", 1, Kind::Grade),
    ("1 0 A +1\n", 1, Kind::Grade),
    ("1 0 A 1.0\n", 1, Kind::Grade),
    ("1 0 A 256\n", 1, Kind::Grade),
    ("1 0 A 99999999999999999999999999\n", 1, Kind::Grade),
    // a document twice in a topic, told where there is no other fault
    (
        "1 0 A 1\n1 0 B 0\n2 0 B 0\n\n1 0 B 1\n1 0 A 1\n",
        5,
        Kind::Twice { first: 2 },
    ),
    ("1 0 A 1\n1 0 A 1\n", 2, Kind::Twice { first: 1 }),
    ("1 0 A 1\n1 0 A 1\n1 0 A x\n", 3, Kind::Grade),
];

const FAULTS_OF_TOPICS: [(&str, u32, Kind); 20] = [
    ("", 0, Kind::Empty),
    (" \n\t\r\n", 0, Kind::Empty),
    // outside a block only its begin may stand
    ("\n<num> 1\n", 2, Kind::Tag),
    ("</top>\n", 1, Kind::Tag),
    ("<top> 1\n", 1, Kind::Tag),
    ("<top>\n<num>1\n<title>t\n</top>\nx\n", 5, Kind::Tag),
    // a block in a block, also in a stretch that is skipped
    ("<top>\n<num>1\n<top>\n", 3, Kind::Tag),
    ("<top>\n<dom>\n<top>\n", 3, Kind::Tag),
    // a field twice
    ("<top>\n<num>1\n<title>t\n<num>1\n</top>\n", 4, Kind::Tag),
    ("<top>\n<title>\n<title>t\n", 3, Kind::Tag),
    ("<top>\n<desc>a\n<narr>b\n<desc>c\n", 4, Kind::Tag),
    ("<top>\n<narr>a\n<narr>b\n", 3, Kind::Tag),
    // a block without a number, and one without a title
    ("<top>\n<title>t\n</top>\n", 3, Kind::Tag),
    ("<top>\n<num>1\n<desc>d\n</top>\n", 4, Kind::Tag),
    // numbers that are no names
    (
        "<top>\n<title>t\n<num> Number: a/b\n</top>\n",
        3,
        Kind::Topic,
    ),
    ("<top>\n<num> Number:\n1\n</top>\n", 2, Kind::Topic),
    // a text that ends inside a block
    ("<top>\n\n", 3, Kind::Tag),
    ("<top>\n<num>1\n<title>t", 4, Kind::Tag),
    // an id twice, told where there is no other fault
    (
        "<top>\n<title>a\n<num>1\n</top>\n<top>\n<num>2\n<title>b\n</top>\n<top>\n\n<num>1\n<title>c\n</top>\n",
        11,
        Kind::Twice { first: 3 },
    ),
    (
        "<top>\n<num>1\n<title>a\n</top>\n<top>\n<num>1\n<title>b\n</top>\nx\n",
        9,
        Kind::Tag,
    ),
];

#[derive(Clone, Copy)]
enum Format {
    Run,
    Qrels,
    Topics,
}

fn end_of(alloc: Global, format: Format, text: &str) -> Option<FormatEnd> {
    match format {
        Format::Run => run_of(alloc, text).err(),
        Format::Qrels => qrels_of(alloc, text).err(),
        Format::Topics => topics_of(alloc, text.as_bytes()).err(),
    }
}

#[test]
fn each_fault_is_told_at_its_line(rt: HostRuntime) {
    for (format, cases) in [
        (Format::Run, FAULTS_OF_RUNS.as_slice()),
        (Format::Qrels, FAULTS_OF_QRELS.as_slice()),
        (Format::Topics, FAULTS_OF_TOPICS.as_slice()),
    ] {
        for (text, line, kind) in cases {
            assert!(rt;
                is_fault(end_of(rt.alloc(), format, text), *line, *kind),
                "{text}"
            );
        }
    }
}

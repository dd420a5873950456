//! Tried are topics texts and their limits, and the text of qrels.
use crate::faults::is_fault;
use crate::readings::topics_of;
use decimal_rank::Text;
use std::alloc::Global;
use std::test::Fail;
use trec_formats::{Kind, QrelLine, Topic, write_qrels};

/// A file of one topic.
const EXAMPLE: &str = "<top>
<num> Number: 401
<title> foreign minorities, Germany

<desc> Description:
What language and cultural differences
impede integration?
</top>
";

fn is_topic(topic: &Topic, wanted: &(&str, &str, &str, &str)) -> bool {
    topic.id.bytes() == wanted.0.as_bytes()
        && topic.title.bytes() == wanted.1.as_bytes()
        && topic.desc.bytes() == wanted.2.as_bytes()
        && topic.narr.bytes() == wanted.3.as_bytes()
}

#[test]
fn the_example_is_read(rt: HostRuntime) -> Result<(), Fail> {
    let topics = topics_of(rt.alloc(), EXAMPLE.as_bytes())?;
    assert!(rt; topics.len() == 1);
    assert!(rt;
        is_topic(
            &topics[0],
            &(
                "401",
                "foreign minorities, Germany",
                "What language and cultural differences impede integration?",
                "",
            ),
        )
    );
    Ok(())
}

fn are_topics(topics: &[Topic], wanted: &[(&str, &str, &str, &str)]) -> bool {
    topics.len() == wanted.len()
        && topics
            .iter()
            .zip(wanted)
            .all(|(topic, wanted)| is_topic(topic, wanted))
}

#[test]
fn topics_are_read(rt: HostRuntime) -> Result<(), Fail> {
    let text = b" \r
\t<top>\r
before any field
<num>Number:  A.b-1 \r
behind the number
<title>  \r
\x0b a\ttitle
<dom> Domain: skipped
too
<narr> Narrative: one\x00 \xc3\xa9\x7f
</head> skipped
</top
<desc>Number: 2\x0c
<3 is no tag
</top>\r

<top>
<title>
<num>2
</top>";
    let wanted = [
        ("A.b-1", "a title", "Number: 2 <3 is no tag", "one? ???"),
        ("2", "", "", ""),
    ];
    let topics = topics_of(rt.alloc(), text)?;
    assert!(rt; are_topics(&topics, &wanted));
    Ok(())
}

#[test]
fn an_example_without_its_end(rt: HostRuntime) {
    let text = EXAMPLE.as_bytes();
    let end = text.len() - b"</top>\n".len();
    assert!(rt; is_fault(topics_of(rt.alloc(), &text[..end]).err(), 8, Kind::Tag));
}

/// A topic with a title of so many bytes, and a description of 4,000 bytes, a space and so many.
fn long_topic(alloc: Global, title: usize, desc: usize) -> Result<Vec<u8>, Fail> {
    let mut text = Vec::from_slice(alloc, b"<top>\n<num>1\n<title>")?;
    for _ in 0..title {
        text.push(b't')?;
    }
    text.extend_from_slice(b"\n<desc>")?;
    for _ in 0..4000 {
        text.push(b'd')?;
    }
    text.push(b'\n')?;
    for _ in 0..desc {
        text.push(b'd')?;
    }
    text.extend_from_slice(b"\n</top>\n")?;
    Ok(text)
}

/// Whether one topic has the longest texts.
fn are_longest(topics: &[Topic]) -> bool {
    topics.len() == 1
        && topics[0].title.bytes().len() == 1000
        && topics[0].desc.bytes().len() == 8192
}

/// Whether a topic of such texts is refused at this line.
fn is_too_long(alloc: Global, title: usize, desc: usize, line: u32) -> Result<bool, Fail> {
    let text = long_topic(alloc, title, desc)?;
    Ok(is_fault(topics_of(alloc, &text).err(), line, Kind::TooLong))
}

#[test]
fn texts_have_limits(rt: HostRuntime) -> Result<(), Fail> {
    let text = long_topic(rt.alloc(), 1000, 4191)?;
    assert!(rt; are_longest(&topics_of(rt.alloc(), &text)?));
    assert!(rt; is_too_long(rt.alloc(), 1001, 4191, 3)?);
    assert!(rt; is_too_long(rt.alloc(), 1000, 4192, 5)?);
    Ok(())
}

fn text_of(alloc: Global, bytes: &str) -> Result<Text, Fail> {
    Ok(Text::new(Vec::from_slice(alloc, bytes.as_bytes())?))
}

fn judgement(alloc: Global, doc: &str, grade: u8) -> Result<QrelLine, Fail> {
    Ok(QrelLine {
        line: 1,
        topic: text_of(alloc, "1")?,
        doc: text_of(alloc, doc)?,
        grade,
    })
}

fn judgements(alloc: Global) -> Result<Vec<QrelLine>, Fail> {
    let mut lines = Vec::new(alloc);
    for (doc, grade) in [("a", 0), ("b", 1), ("c", 1), ("d", 0), ("e", 0), ("f", 255)] {
        lines.push(judgement(alloc, doc, grade)?)?;
    }
    Ok(lines)
}

#[test]
fn qrels_are_written(rt: HostRuntime) -> Result<(), Fail> {
    let text = write_qrels(rt.alloc(), &judgements(rt.alloc())?)?;
    assert!(rt;
        text.bytes() == b"1 0 a 0\n1 0 b 1\n1 0 c 1\n1 0 d 0\n1 0 e 0\n1 0 f 255\n".as_slice()
    );
    Ok(())
}

//! Tries copies of callers and replies, and that commands are the same by all their fields.
use decimal_rank::{Memory, Rows, Text};
use rulebook::{Caller, Command, Quantity, Refusal, Reply, Role};
use std::alloc::Global;
use std::test::Fail;
use trec_formats::{Docnos, TopicList};

fn text(alloc: Global, bytes: &[u8]) -> Result<Text, Memory> {
    Text::from_slice(alloc, bytes)
}

#[test]
fn a_caller_is_copied(rt: HostRuntime) -> Result<(), Fail> {
    let caller = Caller {
        name: text(rt.alloc(), b"grp")?,
        role: Role::Group,
    };
    let copy = caller.copy()?;
    assert!(rt; copy.name.bytes() == b"grp".as_slice() && copy.role == Role::Group);
    Ok(())
}

#[test]
fn a_refusal_is_copied(rt: HostRuntime) -> Result<(), Fail> {
    let which = Quantity::Runs;
    let copy = Reply::Refused(Refusal::Limit { which }).copy(rt.alloc())?;
    assert!(rt;
        matches!(
            &copy,
            Reply::Refused(Refusal::Limit {
                which: Quantity::Runs
            })
        )
    );
    Ok(())
}

fn pool(alloc: Global) -> Result<Reply, Memory> {
    let mut docs = Vec::new(alloc);
    docs.push(text(alloc, b"a")?)?;
    docs.push(text(alloc, b"b")?)?;
    Ok(Reply::Pool {
        topic: text(alloc, b"1")?,
        docs: Rows::new(docs),
    })
}

/// How many documents a pool has.
fn doc_count(reply: &Reply) -> Option<usize> {
    match reply {
        Reply::Pool { docs, .. } => Some(docs.items().len()),
        _ => None,
    }
}

#[test]
fn a_pool_is_copied(rt: HostRuntime) -> Result<(), Fail> {
    let pool = pool(rt.alloc())?;
    assert!(rt; doc_count(&pool.copy(rt.alloc())?) == Some(2));
    Ok(())
}

fn submission(alloc: Global, line: u32, doc: &[u8]) -> Result<Command, Memory> {
    let mut docs = Docnos::new(alloc);
    docs.push(doc)?;
    let mut lists = Vec::new(alloc);
    lists.push(TopicList {
        topic: text(alloc, b"1")?,
        line,
        docs,
    })?;
    Ok(Command::Submit {
        run: text(alloc, b"X")?,
        lists: Rows::new(lists),
    })
}

#[test]
fn commands_are_the_same_by_all_their_fields(rt: HostRuntime) -> Result<(), Fail> {
    let alloc = rt.alloc();
    let first = submission(alloc, 1, b"a")?;
    assert!(rt; first.is_same(&submission(alloc, 1, b"a")?));
    assert!(rt; !first.is_same(&submission(alloc, 2, b"a")?));
    assert!(rt; !first.is_same(&submission(alloc, 1, b"b")?));
    assert!(rt; !first.is_same(&Command::Open));
    assert!(rt; Command::Publish.is_same(&Command::Publish));
    Ok(())
}

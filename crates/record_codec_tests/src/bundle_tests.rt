//! Tries the writing of bundles: entries are appended as one bundle, from which they are read
//! again.
use crate::bundle_bytes::THREE;
use crate::entries::has_fields;
use decimal_rank::Text;
use record_codec::{read_payload, write_bundle};
use rulebook::{Caller, Command, EntryCore, Role};
use std::test::Fail;

#[test]
fn three_entries_are_bundled(rt: HostRuntime) -> Result<(), Fail> {
    let alloc = rt.alloc();
    let cores = [
        EntryCore {
            caller: Caller {
                name: Text::from_slice(alloc, b"org")?,
                role: Role::Organiser,
            },
            number: None,
            moment: 1000,
            command: Command::Open,
        },
        EntryCore {
            caller: Caller {
                name: Text::from_slice(alloc, b"p")?,
                role: Role::Assessor,
            },
            number: None,
            moment: 1000,
            command: Command::Lease {
                topic: Text::from_slice(alloc, b"1")?,
            },
        },
        EntryCore {
            caller: Caller {
                name: Text::from_slice(alloc, b"p")?,
                role: Role::Assessor,
            },
            number: Some(7),
            moment: 1000,
            command: Command::Grade { lease: 1, grade: 2 },
        },
    ];
    let mut out = vec![in alloc; 9]?;
    assert!(rt; write_bundle(&cores, &mut out).is_ok());
    assert!(rt; is_behind_9(&out, &hex::decode(alloc, THREE)?));
    Ok(())
}

fn is_behind_9(out: &[u8], wanted: &[u8]) -> bool {
    out.strip_prefix(&[9]) == Some(wanted)
}

#[test]
fn three_entries_are_read(rt: HostRuntime) -> Result<(), Fail> {
    let alloc = rt.alloc();
    let bytes = hex::decode(alloc, THREE)?;
    let cores = read_payload(alloc, &bytes).ok().ok_or("a bundle")?;
    let lease = Command::Lease {
        topic: Text::from_slice(alloc, b"1")?,
    };
    assert!(rt; are_three(&cores, &lease));
    Ok(())
}

fn are_three(cores: &[EntryCore], lease: &Command) -> bool {
    let grade = Command::Grade { lease: 1, grade: 2 };
    cores.len() == 3
        && has_fields(
            &cores[0],
            &(b"org", Role::Organiser, None, 1000, &Command::Open),
        )
        && has_fields(&cores[1], &(b"p", Role::Assessor, None, 1000, lease))
        && has_fields(&cores[2], &(b"p", Role::Assessor, Some(7), 1000, &grade))
}

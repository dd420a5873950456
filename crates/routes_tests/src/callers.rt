//! The callers of the tests: an organiser, a group and an assessor, each with a key of one letter.
ghost use Rattle.std.specs.Prelude.{◌≡◌, IfOk};
ghost use Rattle.routes.specs.declared.KeyRow.{KeyRow};

use decimal_rank::{Memory, Text};
use routes::{KeyRow, Keys, are_rows};
use rulebook::Role;
use std::alloc::Global;
use std::test::Fail;

fn caller(alloc: Global, name: &[u8], role: Role, key: &[u8]) -> Result<KeyRow, Memory>
    ensures { let caller : KeyRow = record { name = name.now; role = role; key = key.now } in
        IfOk result (λ made. made ≡ caller) }
{
    Ok(KeyRow {
        name: Text::from_slice(alloc, name)?,
        role,
        key: Text::from_slice(alloc, key)?,
    })
}

/// The three callers.
#[tactic(auto, unfolding(trec_formats::specs::Names::is_name))]
pub(crate) fn keys(alloc: Global) -> Result<Keys, Memory> {
    let mut callers = Vec::new(alloc);
    callers.push(caller(alloc, b"org", Role::Organiser, b"o")?)?;
    callers.push(caller(alloc, b"grp", Role::Group, b"g")?)?;
    callers.push(caller(alloc, b"ann", Role::Assessor, b"a")?)?;
    Ok(Keys::new(callers))
}

#[test]
fn callers_have_keys_of_their_own(rt: HostRuntime) -> Result<(), Fail> {
    let mut callers = Vec::new(rt.alloc());
    callers.push(caller(rt.alloc(), b"org", Role::Organiser, b"o")?)?;
    callers.push(caller(rt.alloc(), b"grp", Role::Group, b"g")?)?;
    assert!(rt; are_rows(&callers));
    callers.push(caller(rt.alloc(), b"ann", Role::Assessor, b"o")?)?;
    assert!(rt; !are_rows(&callers));
    Ok(())
}

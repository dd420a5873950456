//! Tables that find items by a key.
use decimal_rank::{Chains, Secret};
use std::test::Fail;

#[test]
fn equal_texts_share_a_key(rt: HostRuntime) {
    let secret = Secret::drawn();
    assert!(rt; secret.key_of(b"FT911-3") == secret.key_of(b"FT911-3"));
    assert_ne!(rt;
        secret.key_of(b"FT911-3"),
        Secret::drawn().key_of(b"FT911-3")
    );
    assert!(rt; Secret::is_source_answering());
}

#[test]
fn items_of_a_bucket_are_found_from_the_newest_on(rt: HostRuntime) -> Result<(), Fail> {
    let mut chains = Chains::with_room(rt.alloc(), 4)?;
    chains.push(1)?;
    chains.push(5)?;
    assert!(rt;
        [chains.newest(9), chains.earlier(1), chains.newest(4)] == [Some(1), Some(0), None]
    );
    Ok(())
}

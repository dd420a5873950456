//! The failing calls of a memory form.
use decimal_rank::{FailurePlan, count_more};
use std::test::Fail;

#[test]
fn calls_fail_at_their_places(rt: HostRuntime) -> Result<(), Fail> {
    let mut plan = FailurePlan::new(vec![in rt.alloc(); 2, 4]?);
    for fails in [false, true, false, true, false] {
        assert!(rt; plan.call() == fails);
    }
    assert!(rt; count_more(u64::MAX) == u64::MAX);
    Ok(())
}

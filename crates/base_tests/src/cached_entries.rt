//! A cache that can hold nothing.

use cache_plan::{Cache, CacheFault};

#[test]
fn a_cache_without_entries_is_unusable(rt: HostRuntime) {
    let refused = Cache::new(rt.alloc(), 0);
    assert!(rt; matches!(refused, Err(CacheFault::Unusable)));
}

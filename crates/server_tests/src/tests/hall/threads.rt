//! What threads may do with a hall: it may go to another one. A caller needs this of the type, and no contract says it.

use relay_hall::Hall;

/// Whether values of the type may go to another thread: only such a type is taken.
fn may_go<T: Send>() -> bool {
    true
}

#[test]
fn a_hall_may_go_to_another_thread(rt: HostRuntime) {
    assert!(rt; may_go::<Hall>());
}

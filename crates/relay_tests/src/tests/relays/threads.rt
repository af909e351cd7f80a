//! What threads may do with a relay: either kind may go to another one, and the plain one may be read by several at once. A caller needs
//! this of the types, and no contract says it.

use crate::tests::claims::claim;
use crate::tests::relays::kinds::made;
use crate::tests::relays::table::limits_of;
use relay_core::Relay;
use relay_live::LiveRelay;

/// Whether values of the type may go to another thread: only such a type is taken.
fn may_go<T: Send>(_value: &T) -> bool {
    true
}

/// Whether several threads may read values of the type at once: only such a type is taken.
fn may_be_shared<T: Sync>(_value: &T) -> bool {
    true
}

#[test]
fn a_relay_may_go_to_another_thread_and_be_shared(rt: HostRuntime) {
    let relay: Relay = made(&rt, rt.alloc(), limits_of(&rt, (1, 1, 1, 1)));
    claim(&rt, may_go(&relay) && may_be_shared(&relay), "it may");
    drop(relay);
}

#[test]
fn a_live_relay_may_go_to_another_thread(rt: HostRuntime) {
    let relay: LiveRelay = made(&rt, rt.alloc(), limits_of(&rt, (1, 1, 1, 1)));
    claim(&rt, may_go(&relay), "it may");
    drop(relay);
}

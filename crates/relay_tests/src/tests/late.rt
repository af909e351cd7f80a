//! What becomes due between a look and the wait after it.

use crate::list_outlet::ListOutlet;
use crate::tests::claims::claim;
use crate::tests::fakes::Ringing;
use relay_core::Taken;
use relay_pushing::{Bell, PushEnd, SendFault, Source, push_all};

/// A source that has nothing at first, and whose bell is rung right after that answer; then it is closed.
#[derive(Drop)]
struct Late<'a> {
    bell: &'a Ringing,
    looks: u32,
}

impl Source for Late<'_> {
    ghost gives = { λ _ _ _. Unit {0} };

    fn take(&mut self) -> Taken {
        self.looks = self.looks.saturating_add(1);
        if self.looks > 1 {
            return Taken::Cut;
        }
        self.bell.ring();
        Taken::Nothing
    }
}

#[test]
fn a_ring_behind_a_look_is_not_slept_through(rt: HostRuntime) {
    let bell = Ringing::new();
    let mut source = Late {
        bell: &bell,
        looks: 0,
    };
    let mut outlet = ListOutlet::new(rt.alloc(), 9, 9);
    let end = push_all(&rt, rt.alloc(), &mut outlet, &mut source, &bell);
    claim(&rt, bell.sleeps.get() == 0, "no wait lasts");
    claim(&rt, source.looks == 2, "two looks");
    let is_cut = end == PushEnd::Cut;
    let no_memory = end == PushEnd::Failed(SendFault::OutOfMemory);
    claim(&rt, is_cut || no_memory, "how pushing ends");
    drop(outlet);
}

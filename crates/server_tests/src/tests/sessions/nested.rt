//! The gate of a first command, notified before the command is carried out.

use crate::tests::claims::claim;
use crate::tests::sessions::frames::{CLOSE, NORMAL, TEXT};
use crate::tests::sessions::peers::Peer;
use crate::tests::sessions::rows::{Frame, input, is_told, registry};
use crate::tests::sessions::texts::OPEN_B1;
use relay_server::{Gate, OpenGate, Registry, SessionEnd};
use std::alloc::Global;
use std::cell::Cell;
use std::process::Abort;
use std::sync::Wait;

const FRAMES: &[Frame] = &[(TEXT, OPEN_B1), (CLOSE, NORMAL)];

const OPENED: &[u8] = b"{\"reply\":\"opened\"}\nclose 1000\n";

const EXISTS: &[u8] = b"{\"code\":2,\"name\":\"BoardExists\",\"reply\":\"refused\"}\nclose 1000\n";

/// Whether the session of a peer that opens b1 and then closes is answered so.
fn is_answered<R: Wait + Abort, G: Gate>(
    rt: &R,
    alloc: Global,
    registry: &Registry,
    connection: u32,
    gate: &G,
    answer: &[u8],
) -> bool {
    let bytes = input(alloc, FRAMES).expect(rt, "memory");
    let (peer, wanted) = (Peer::new(&bytes), (SessionEnd::Closed, answer));
    is_told(rt, alloc, registry, connection, peer, gate, wanted)
}

/// A gate at which another connection opens b1 in the meantime. It notes whether that one succeeded.
#[derive(Drop)]
struct Overtaken<'a, R> {
    rt: &'a R,
    alloc: Global,
    registry: &'a Registry,
    was_opened: Cell<bool>,
}

impl<R: Wait + Abort> Gate for Overtaken<'_, R> {
    fn before(&self, _connection: u32) {
        let is_opened = is_answered(self.rt, self.alloc, self.registry, 2, &OpenGate, OPENED);
        self.was_opened.set(is_opened);
    }

    fn after(&self, _connection: u32) {}
}

#[test]
fn a_gate_is_told_before_the_first_command_is_carried_out(rt: HostRuntime) {
    let alloc = rt.alloc();
    let shared = registry(&rt, alloc);
    let gate = Overtaken {
        rt: &rt,
        alloc,
        registry: &shared,
        was_opened: Cell::new(false),
    };
    let exists = is_answered(&rt, alloc, &shared, 1, &gate, EXISTS);
    claim(&rt, exists, "the board exists by then");
    claim(&rt, gate.was_opened.get(), "another has opened it");
    drop(shared);
}

//! Random sessions: an operator, and between any two of its messages whole sessions of others.

use crate::tests::chance::Dice;
use crate::tests::claims::claim;
use crate::tests::comparing::commands::{Speaker, add_farewell, add_said};
use crate::tests::comparing::fast::{Fast, shaken};
use crate::tests::comparing::seen::Seen;
use crate::tests::sessions::frames::REQUEST;
use crate::tests::sessions::peers::Peer;
use crate::tests::sessions::rows::{is_told, talked};
use c960_game::Limits;
use relay_hall::Hall;
use relay_server::{OpenGate, Registry};
use std::alloc::Global;
use std::io;
use std::io::{ErrorKind, Read};
use std::process::Abort;
use std::sync::Wait;

/// How many servers there are, how many operators come to each, and how much each says.
const SERVERS: u32 = 30;

const OPERATORS: u32 = 6;

const MESSAGES: u32 = 24;

/// The number of the first operator. Those of others are below.
const FIRST_OPERATOR: u32 = 1_000_000;

/// A server as the program has it, as far as it is a value, and what has occurred.
#[derive(Drop)]
struct Side {
    alloc: Global,
    dice: Dice,
    hall: Hall,
    seen: Seen,
    numbers: u32,
}

impl Side {
    /// A speaker says something next.
    fn adds_said(&mut self, rt: &impl Abort, bytes: &mut Vec<u8>, speaker: &mut Speaker) {
        add_said(rt, self.alloc, bytes, &mut self.dice, &self.hall, speaker);
    }

    /// What a connection says that comes and goes at once.
    fn all_said(&mut self, rt: &impl Abort) -> Vec<u8> {
        let mut bytes = Vec::new(self.alloc);
        let mut speaker = Speaker::new(&mut self.dice);
        for _ in 0..self.dice.below(14) {
            self.adds_said(rt, &mut bytes, &mut speaker);
        }
        add_farewell(rt, &mut bytes, &mut self.dice);
        bytes
    }

    /// A whole session of somebody, through both.
    fn somebody<R: Wait + Abort>(&mut self, rt: &R, registry: &Registry) {
        self.numbers = self.numbers.wrapping_add(1);
        let number = self.numbers;
        let bytes = self.all_said(rt);
        let mut fast = shaken(rt, self.alloc, number);
        fast.comes(rt, &mut self.hall, bytes.as_slice());
        let (end, told) = fast.goes(rt, &mut self.hall);
        self.seen.note(told.as_slice());
        let (alloc, peer) = (self.alloc, Peer::new(bytes.as_slice()));
        let wanted = (end, told.as_slice());
        let is_same = is_told(rt, alloc, registry, number, peer, &OpenGate, wanted);
        claim(rt, is_same, "somebody is told the same by both");
        drop((bytes, told));
    }

    /// Up to two of them.
    fn others<R: Wait + Abort>(&mut self, rt: &R, registry: &Registry) {
        for _ in 0..self.dice.below(3) {
            self.somebody(rt, registry);
        }
    }
}

/// An operator, whose next message is drawn when it is read. Others come in between. The other server hears each message first.
#[derive(Drop)]
struct Operator<'a, R> {
    rt: &'a R,
    registry: &'a Registry,
    side: &'a mut Side,
    fast: &'a mut Fast,
    has_asked: bool,
    left: u32,
    speaker: Speaker,
}

impl<R: Wait + Abort> Operator<'_, R> {
    /// It says something next, which the other server has heard then; or nothing any more.
    fn says(&mut self, bytes: &mut Vec<u8>) {
        if self.left == 0 {
            return;
        }
        self.left = self.left.wrapping_sub(1);
        if self.left == 0 {
            add_farewell(self.rt, bytes, &mut self.side.dice);
        } else {
            self.side.adds_said(self.rt, bytes, &mut self.speaker);
        }
        self.fast
            .comes(self.rt, &mut self.side.hall, bytes.as_slice());
    }

    /// Others come and go, and then it says something.
    fn next(&mut self) -> Vec<u8> {
        self.side.others(self.rt, self.registry);
        let mut bytes = Vec::new(self.side.alloc);
        self.says(&mut bytes);
        bytes
    }
}

impl<R: Wait + Abort> Read for Operator<'_, R> {
    fn read(&mut self, buf: &mut [u8]) -> io::Result<usize> {
        if !self.has_asked {
            self.has_asked = true;
            let mut request = REQUEST;
            return request.read(buf);
        }
        let bytes = self.next();
        if bytes.len() > buf.len() {
            return Err(io::Error::from(ErrorKind::Other));
        }
        let mut left = bytes.as_slice();
        left.read(buf)
    }
}

/// The session of an operator, through both.
fn operates<R: Wait + Abort>(rt: &R, registry: &Registry, side: &mut Side, number: u32) {
    let alloc = side.alloc;
    let speaker = Speaker::new(&mut side.dice);
    let mut fast = shaken(rt, alloc, number);
    let operator = Operator {
        rt,
        registry,
        side: &mut *side,
        fast: &mut fast,
        has_asked: false,
        left: MESSAGES,
        speaker,
    };
    let plain = talked(rt, alloc, registry, number, operator, &OpenGate);
    let fast = fast.goes(rt, &mut side.hall);
    side.seen.note(fast.1.as_slice());
    let is_same = plain.0 == fast.0 && plain.1.as_slice() == fast.1.as_slice();
    claim(rt, is_same, "an operator is told the same by both");
    drop((plain, fast));
}

/// A server with room for six boards of four plies, whose followers may be three moves behind.
fn run<R: Wait + Abort>(rt: &R, alloc: Global, seed: u32, seen: &mut Seen) {
    let limits = Limits::new(6, 2, 3, 4).expect(rt, "limits");
    let registry = Registry::new(alloc, limits).expect(rt, "memory");
    let mut side = Side {
        alloc,
        dice: Dice { seed },
        hall: Hall::new(alloc, limits, 0).expect(rt, "memory"),
        seen: *seen,
        numbers: 0,
    };
    for number in 0..OPERATORS {
        let number = FIRST_OPERATOR.wrapping_add(number);
        operates(rt, &registry, &mut side, number);
    }
    *seen = side.seen;
    drop((registry, side));
}

#[test]
fn random_sessions_are_told_the_same_by_both(rt: HostRuntime) {
    let mut seen = Seen::new();
    for seed in 0..SERVERS {
        run(&rt, rt.alloc(), seed, &mut seen);
    }
    seen.assert_all(&rt);
}

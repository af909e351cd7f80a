//! Where newcomers come in, and how many were met.

ghost use Rattle.std.specs.Prelude.{◌≡◌, ◌≤◌, ◌+◌, IfSome, false, true, not};
ghost use Rattle.main_port.specs.Meeting.{OnlyMeets, is_full, met_by, met_of, met_one, none_met};

use crate::clients::Clients;
use crate::clients::turns::MOST_OTHERS_MICROS;
use crate::serve_end::ServeEnd;
use crate::settings::Settings;
use crate::watchers::Watchers;
use mio::Registry;
use server_loop::{Arrival, Log, LogLine, MOST_NEWCOMERS, Reserve};
use std::marker::Model;
use std::net::TcpListener;
use std::sync::Wait;
use std::sync::atomic::{AtomicBool, Ordering};
use std::time::Clock;

/// How many milliseconds after an accept that failed another one is tried.
const RETRY_MILLIS: u64 = 20;

/// The listener, until it is closed, and how many have come. Contracts see an `AcceptorRecord`.
#[derive(Drop)]
pub(crate) struct Acceptor<'a> {
    /// Where newcomers come in, as long as any may, and a descriptor in reserve for it.
    listener: Option<(TcpListener, Reserve)>,
    met: ServeEnd,
    /// How many may be met, if that is bounded.
    most: Option<u32>,
    /// Whether serving may end before the last has come.
    may_end: bool,
    /// Whether it is to, if it may.
    has_input_ended: &'a AtomicBool,
    log: &'a Log,
    /// Whether there may be newcomers that the system does not report again.
    has_newcomers: bool,
    /// From which millisecond on they are accepted: an accept that failed is not tried again at once.
    opens_at: u64,
    /// Once all is heard that had come by this millisecond, so is all that newcomers had sent before they were accepted.
    heard_from: u64,
    /// Whether the last newcomer was turned away.
    is_short: bool,
}

impl<'a> Model for Acceptor<'a> {
    ghost use Rattle.main_port.specs.Meeting.{AcceptorRecord};

    ghost Value = { AcceptorRecord };

    ghost use Rattle.main_port.specs.Inner.{IsAcceptor, acceptor_of};

    ghost view = { acceptor_of };

    ghost invariant = { IsAcceptor };
}

impl<'a> Acceptor<'a> {
    /// Accepts at this listener, which does not wait, as many as these settings say, or without that number as many as come.
    pub(crate) fn new(
        listener: (TcpListener, Reserve),
        settings: &Settings,
        has_input_ended: &'a AtomicBool,
        log: &'a Log,
    ) -> Acceptor<'a>
        ensures { result ≡ none_met settings.now.most settings.now.until_input_ends }
    {
        Acceptor {
            listener: Some(listener),
            met: ServeEnd {
                served: 0,
                failed: 0,
            },
            most: settings.most,
            may_end: settings.until_input_ends,
            has_input_ended,
            log,
            has_newcomers: true,
            opens_at: 0,
            heard_from: 0,
            is_short: false,
        }
    }

    /// In how many milliseconds newcomers are accepted that may be waiting, if any may come.
    pub(crate) fn accepts_in(&self, now: u64) -> Option<u64> {
        let may_come = self.has_newcomers && self.listener.is_some() && !self.is_full();
        may_come.then_some(self.opens_at.saturating_sub(now))
    }

    /// Once all is heard that had come by this millisecond, so is all that newcomers had sent before they were accepted.
    pub(crate) fn heard_from(&self) -> u64 {
        self.heard_from
    }

    /// Newcomers may be waiting.
    pub(crate) fn looks(&mut self)
        ensures { self.new ≡ self.old }
    {
        self.has_newcomers = true;
    }

    /// Accepts newcomers, but no more of them than the system reported events, and only as long as there is time for that.
    pub(crate) fn accept<R: Wait + Clock, W: Watchers>(
        &mut self,
        clients: &mut Clients<'_, R, W>,
        registry: &Registry,
        told: usize,
    )
        ensures { OnlyMeets self.old self.new }
    {
        let until = clients.common.time_for(MOST_OTHERS_MICROS);
        for _ in 0..told.clamp(1, MOST_NEWCOMERS) {
            if self.accepts_in(clients.now()) != Some(0) {
                return;
            }
            let arrival = self.next();
            self.lets_in(arrival, clients, registry);
            if clients.common.is_late(until) {
                return;
            }
        }
    }

    /// Lets in whoever came. Each that came was met, also one that was turned away, and so was each try that failed: another comes later.
    fn lets_in<R: Wait + Clock, W: Watchers>(
        &mut self,
        arrival: Arrival,
        clients: &mut Clients<'_, R, W>,
        registry: &Registry,
    )
        ensures rest { OnlyMeets self.old self.new }
        ensures met { met_of self.new ≡ met_by arrival self.old }
    {
        let is_in = match arrival {
            Arrival::Nobody => {
                self.has_newcomers = false;
                return;
            }
            Arrival::Newcomer(stream) => {
                self.heard_from = clients.now().saturating_add(1);
                clients.enters(stream, registry)
            }
            Arrival::TurnedAway => false,
            Arrival::Failed => {
                self.opens_at = clients.now().saturating_add(RETRY_MILLIS);
                false
            }
        };
        self.meets(is_in);
        // One that is turned away is reported on standard error, unless the one before was, too.
        if !is_in && !self.is_short {
            self.log.note(clients.common.rt, LogLine::NoRoom);
        }
        self.is_short = !is_in;
    }

    /// One was met, and let in or not, unless as many were as may be.
    fn meets(&mut self, is_in: bool)
        ensures { self.new ≡ met_one is_in self.old }
    {
        if self.met.served + self.met.failed >= self.most.unwrap_or(u32::MAX) {
            return;
        }
        if is_in {
            self.met.served += 1;
        } else {
            self.met.failed += 1;
        }
    }

    /// The next newcomer, if any may come.
    fn next(&mut self) -> Arrival
        ensures { self.new ≡ self.old }
    {
        match &mut self.listener {
            Some((listener, reserve)) => reserve.accept(listener),
            None => Arrival::Nobody,
        }
    }

    /// Whether the last that may be met has been.
    fn is_full(&self) -> bool
        ensures { result ≡ is_full self.now }
    {
        match self.most {
            Some(most) => self.met.served + self.met.failed >= most,
            None => false,
        }
    }

    /// Whether serving ends before the last has come.
    pub(crate) fn is_ending(&self) -> bool
        ensures { result ≡ true → self.now.may_end ≡ true }
    {
        self.may_end && self.has_input_ended.load(Ordering::SeqCst)
    }

    /// Closes the listener if the last has come that may, which is reported, or serving ends. Returns whether it is closed.
    pub(crate) fn closes_if_over<R: Wait>(&mut self, rt: &R) -> bool
        ensures closed { result ≡ not self.new.is_open }
        ensures rest { self.new ≡ record self.old { is_open = self.new.is_open } }
        ensures full { is_full self.old ≡ true → result ≡ true }
    {
        let is_full = self.is_full();
        if self.listener.is_some() && (is_full || self.is_ending()) {
            self.listener = None;
            match self.most {
                Some(most) if is_full => self.log.note(rt, LogLine::TheLast(most)),
                _ => {}
            }
        }
        self.listener.is_none()
    }

    /// How serving ended.
    pub(crate) fn end(self) -> ServeEnd
        ensures met { result ≡ self.entry.met }
        ensures most { IfSome self.entry.most (λ n. result.served + result.failed ≤ n) }
        ensures all { self.entry.is_open ≡ false → self.entry.may_end ≡ false → IfSome self.entry.most (λ n. result.served + result.failed ≡ n) }
    {
        self.met
    }
}

//! What is done to the service: each call as the service's own, and behind it what its boards then have is noted.

ghost use Rattle.std.specs.Prelude.{◌≡◌, ◌⊎◌, ◌+◌, ◌-◌, ◌^◌, IfOk, OnErr, OnOk, Some, is_some, true};
ghost use Rattle.relay_service.specs.Calling.Running.{was_pinged, was_sent_away};
ghost use Rattle.relay_service.specs.Following.Calls.{closed_by, pinged};
ghost use Rattle.relay_frames.specs.declared.output.TheConstants.{MOST_OUTPUT};
ghost use Rattle.relay_hall.specs.Runs.{Ends, Shuts, Time};
ghost use Rattle.relay_service.specs.Calls.{AnswersAt, DisconnectsAt, FailsAt, LeavesAt, Loses, Passes, PushFailsAt, PushesAt, PutsAt, ReceivesAt, Replaces, SendsAt};
ghost use Rattle.relay_service.specs.Record.{opened};
ghost use Rattle.relay_durable.specs.Record.{has_failed};

use crate::durable_service::{DurableService, note};
use chained_lines::StableStorage;
use relay_frames::Code;
use relay_service::calling::laws::one_step_at_most;
use std::alloc::AllocError;

impl<S: StableStorage> DurableService<S> {
    /// As `Service::connect`.
    ///
    /// # Errors
    ///
    /// As there.
    pub fn connect(&mut self) -> Result<u64, AllocError>
        ensures number { IfOk result (λ number. number ≡ self.old.service.next) }
        ensures there { IfOk result (λ number. Replaces number (Some (opened number self.old.service.takes_keys)) self.old.service.connections self.new.service.connections) }
        ensures rest { OnOk result (self.new.service ≡ record self.old.service { connections = self.new.service.connections; next = self.old.service.next + 1 }) }
        ensures unchanged { OnErr result (self.new ≡ self.old) }
        ensures scribe { self.new.scribe ≡ self.old.scribe }
    {
        self.service.connect()
    }

    /// As `Service::receive`.
    ///
    /// # Errors
    ///
    /// As there.
    pub fn receive(&mut self, number: u64, bytes: &[u8]) -> Result<(), AllocError>
        ensures ok { OnOk result (ReceivesAt self.old.service number bytes.now self.new.service) }
        ensures err { OnErr result ((self.new.service ≡ self.old.service) ⊎ Loses self.old.service number bytes.now self.new.service) }
        ensures scribe { self.new.scribe ≡ self.old.scribe }
    {
        self.service.receive(number, bytes)
    }

    /// As `Service::answer`.
    ///
    /// # Errors
    ///
    /// As there. What has become of boards is noted even so.
    pub fn answer(&mut self, number: u64) -> Result<bool, AllocError>
        ensures ok { IfOk result (λ some. AnswersAt self.old.service number some self.new.service) }
        ensures err { OnErr result (FailsAt self.old.service number self.new.service) }
        ensures journal { is_some self.new.scribe ≡ is_some self.old.scribe }
        ensures silent { has_failed self.old ≡ true → self.new.scribe ≡ self.old.scribe }
    {
        one_step_at_most();
        let answered = self.service.answer(number);
        note(self.alloc, &mut self.scribe, self.service.hall());
        answered
    }

    /// As `Service::push`.
    ///
    /// # Errors
    ///
    /// As there.
    pub fn push(&mut self, number: u64) -> Result<bool, AllocError>
        ensures ok { IfOk result (λ more. PushesAt self.old.service number MOST_OUTPUT more self.new.service) }
        ensures err { OnErr result (PushFailsAt self.old.service number MOST_OUTPUT self.new.service) }
        ensures scribe { self.new.scribe ≡ self.old.scribe }
    {
        self.service.push(number)
    }

    /// As `Service::push_all`.
    ///
    /// # Errors
    ///
    /// As there.
    pub fn push_all(&mut self, number: u64) -> Result<bool, AllocError>
        ensures ok { IfOk result (λ more. PushesAt self.old.service number (2 ^ 64 - 1) more self.new.service) }
        ensures err { OnErr result (PushFailsAt self.old.service number (2 ^ 64 - 1) self.new.service) }
        ensures scribe { self.new.scribe ≡ self.old.scribe }
    {
        self.service.push_all(number)
    }

    /// As `Service::sent`.
    pub fn sent(&mut self, number: u64, n: usize)
        ensures sent { SendsAt self.old.service number n self.new.service }
        ensures scribe { self.new.scribe ≡ self.old.scribe }
    {
        self.service.sent(number, n);
    }

    /// As `Service::ping`.
    ///
    /// # Errors
    ///
    /// As there.
    pub fn ping(&mut self, number: u64) -> Result<(), AllocError>
        ensures ok { OnOk result (PutsAt self.old.service number was_pinged pinged self.new.service) }
        ensures err { OnErr result (self.new.service ≡ self.old.service) }
        ensures scribe { self.new.scribe ≡ self.old.scribe }
    {
        self.service.ping(number)
    }

    /// As `Service::close`.
    ///
    /// # Errors
    ///
    /// As there.
    pub fn close(&mut self, number: u64, code: Code) -> Result<(), AllocError>
        ensures ok { OnOk result (PutsAt self.old.service number (λ some. was_sent_away some code.number) (λ f. closed_by f code.number) self.new.service) }
        ensures err { OnErr result (self.new.service ≡ self.old.service) }
        ensures scribe { self.new.scribe ≡ self.old.scribe }
    {
        self.service.close(number, code)
    }

    /// As `Service::leave`.
    pub fn leave(&mut self, number: u64)
        ensures left { LeavesAt self.old.service number self.new.service }
        ensures journal { is_some self.new.scribe ≡ is_some self.old.scribe }
        ensures silent { has_failed self.old ≡ true → self.new.scribe ≡ self.old.scribe }
    {
        self.service.leave(number);
        note(self.alloc, &mut self.scribe, self.service.hall());
    }

    /// As `Service::disconnect`.
    pub fn disconnect(&mut self, number: u64)
        ensures gone { DisconnectsAt self.old.service number self.new.service }
        ensures journal { is_some self.new.scribe ≡ is_some self.old.scribe }
        ensures silent { has_failed self.old ≡ true → self.new.scribe ≡ self.old.scribe }
    {
        self.service.disconnect(number);
        note(self.alloc, &mut self.scribe, self.service.hall());
    }

    /// As `Service::tick`.
    pub fn tick(&mut self, millis: u64)
        ensures passed { Passes self.old.service (Time millis) self.new.service }
        ensures journal { is_some self.new.scribe ≡ is_some self.old.scribe }
        ensures silent { has_failed self.old ≡ true → self.new.scribe ≡ self.old.scribe }
    {
        self.service.tick(millis);
        note(self.alloc, &mut self.scribe, self.service.hall());
    }

    /// As `Service::shut`.
    pub fn shut(&mut self)
        ensures passed { Passes self.old.service Shuts self.new.service }
        ensures journal { is_some self.new.scribe ≡ is_some self.old.scribe }
        ensures silent { has_failed self.old ≡ true → self.new.scribe ≡ self.old.scribe }
    {
        self.service.shut();
        note(self.alloc, &mut self.scribe, self.service.hall());
    }

    /// As `Service::end_all`.
    pub fn end_all(&mut self)
        ensures passed { Passes (record self.old.service { is_ending = true }) Ends self.new.service }
        ensures journal { is_some self.new.scribe ≡ is_some self.old.scribe }
        ensures silent { has_failed self.old ≡ true → self.new.scribe ≡ self.old.scribe }
    {
        self.service.end_all();
        note(self.alloc, &mut self.scribe, self.service.hall());
    }

    /// As `Service::take_changed`.
    pub fn take_changed(&mut self) -> Option<usize>
        ensures { self.new ≡ self.old }
    {
        self.service.take_changed()
    }

    /// As `Service::take_turned_away`.
    pub fn take_turned_away(&mut self) -> bool
        ensures { self.new ≡ self.old }
    {
        self.service.take_turned_away()
    }

    /// As `Service::knows_full`.
    pub fn knows_full(&mut self, at: usize, is_full: bool)
        ensures { self.new ≡ self.old }
    {
        self.service.knows_full(at, is_full);
    }

    /// As `Service::takes_boards`.
    pub fn takes_boards(&mut self, takes: bool)
        ensures { self.new ≡ self.old }
    {
        self.service.takes_boards(takes);
    }

    /// As `Service::take_said`.
    pub fn take_said(&mut self, number: u64) -> bool
        ensures { self.new ≡ self.old }
    {
        self.service.take_said(number)
    }

    /// As `Service::take_whole`.
    pub fn take_whole(&mut self, number: u64) -> bool
        ensures { self.new ≡ self.old }
    {
        self.service.take_whole(number)
    }
}

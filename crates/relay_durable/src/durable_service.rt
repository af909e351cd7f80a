//! A service and its journal, as one value.

ghost use Rattle.std.specs.Prelude.{◌≡◌, ℕ, None, IfOk, IsErr, IsErrOf, OnErr, OnOk, false, is_some, length, true};
ghost use Rattle.relay_hall.specs.Record.{HallRecord, nobody_yet};
ghost use Rattle.relay_journal.specs.Restarting.{IsRefusedAt, IsRestarted};
ghost use Rattle.relay_journal.specs.declared.unfit.Unfit.TheVariants.{Refused};
ghost use Rattle.relay_service.specs.Resumed.{IsResumed};
ghost use Rattle.relay_durable.specs.Keeping.{HasCause, IsJournalOf, IsKept, IsOneEvent};
ghost use Rattle.relay_durable.specs.Record.{has_failed, has_failed_by, is_settled};

mod changing;
mod looking;
mod sending;

use c960_game::Limits;
use chained_lines::{Journal, StableStorage};
use relay_hall::Hall;
use relay_journal::{Entry, Scribe, Unfit, recover};
use relay_service::Service;
use std::alloc::Global;
use std::io;
use std::marker::Model;

/// A service, and what writes the journal of its boards, if there is one. Contracts see a `DurableRecord`.
///
/// Behind each event of the hall what is missing in the journal is noted. `commit` writes and syncs what was noted. Until then nothing is
/// due to anybody.
#[derive(Drop)]
pub struct DurableService<S: StableStorage> {
    alloc: Global,
    service: Service,
    scribe: Option<Scribe<S>>,
}

impl<S: StableStorage> Model for DurableService<S> {
    ghost use Rattle.relay_durable.specs.Record.{DurableRecord};

    ghost Value = { DurableRecord S };

    ghost use Rattle.relay_durable.specs.Inner.{IsDurable, durable_of};

    ghost view = { durable_of };

    ghost invariant = { IsDurable S.contents S.synced };
}

/// Notes what is missing in the journal, if there is one, behind an event of the hall or none. If that fails it does for good, and no
/// commit succeeds any more.
fn note<S: StableStorage>(alloc: Global, scribe: &mut Option<Scribe<S>>, hall: &Hall)
    ensures kept { (k : HallRecord) → IsOneEvent k hall.now → IsKept S.contents S.synced scribe.old k.floor
        → IsKept S.contents S.synced scribe.new hall.now.floor }
    ensures journal { is_some scribe.new ≡ is_some scribe.old }
    ensures silent { has_failed_by scribe.old ≡ true → scribe.new ≡ scribe.old }
{
    if let Some(scribe) = scribe {
        let _ = scribe.note(alloc, hall);
    }
}

impl<S: StableStorage> DurableService<S> {
    /// The service without connections whose boards these entries of a journal lead to, at this time, in which every operator was lost:
    /// boards of a key wait for the whole grace, and games that nobody can come back to are ended as abandoned. That journal goes on, with
    /// these ends: they are noted, and not committed yet.
    ///
    /// # Errors
    ///
    /// An entry was refused, or there was no memory.
    pub fn recover(
        alloc: Global,
        limits: Limits,
        grace: u64,
        now: u64,
        takes_keys: bool,
        entries: &[Entry],
        journal: Journal<S>,
    ) -> Result<Self, Unfit>
    where
        S: Drop,
        requires journal { IsJournalOf S.contents S.synced journal entries.now }
        ensures restarted { IfOk result (λ d. IsRestarted limits grace now entries.now d.service.hall) }
        ensures resumed { IfOk result (λ d. IsResumed limits grace (length entries.now) takes_keys d.service.hall d.service) }
        ensures journal { IfOk result (λ d. is_some d.scribe ≡ true) }
        ensures refused { (at : ℕ) → IsErrOf result (Refused at) → IsRefusedAt (nobody_yet limits grace) entries.now at }
    {
        let (hall, scribe) = recover(alloc, limits, grace, now, entries, journal)?;
        let next = entries.len() as u64;
        Ok(DurableService {
            alloc,
            service: Service::resume(alloc, hall, next, takes_keys, &limits, grace),
            scribe: Some(scribe),
        })
    }

    /// This service without a journal: all is settled at any time.
    pub fn without_journal(alloc: Global, service: Service) -> Self
        ensures { result ≡ record { service = service; scribe = None } }
    {
        DurableService {
            alloc,
            service,
            scribe: None,
        }
    }

    /// Whether all that the boards have is on the disk, if there is a journal.
    pub fn is_settled(&self) -> bool
        ensures { result ≡ is_settled self.now }
    {
        match &self.scribe {
            Some(scribe) => scribe.is_settled(),
            None => true,
        }
    }

    /// Whether there is a journal.
    pub fn has_journal(&self) -> bool
        ensures { result ≡ is_some self.now.scribe }
    {
        self.scribe.is_some()
    }

    /// Writes what was noted to the journal, and syncs it. Afterwards all is settled. If the disk has no room then but for what goes on, no
    /// boards are opened until it has.
    ///
    /// # Errors
    ///
    /// The journal failed, now or before, or there was no memory for it. Nothing is due to anybody any more.
    pub fn commit(&mut self) -> io::Result<()>
        ensures settled { OnOk result (is_settled self.new ≡ true) }
        ensures failed { OnErr result (is_settled self.new ≡ false) }
        ensures service { self.new.service ≡ self.old.service }
        ensures journal { is_some self.new.scribe ≡ is_some self.old.scribe }
        ensures cause { OnErr result (HasCause S.failures self.old.scribe self.new.scribe) }
        ensures lasting { OnErr result (has_failed self.new ≡ true) }
        ensures silent { has_failed self.old ≡ true → IsErr result × (self.new ≡ self.old) }
    {
        let Some(scribe) = &mut self.scribe else {
            return Ok(());
        };
        scribe.commit()?;
        self.service.takes_boards(scribe.has_room());
        Ok(())
    }

    /// Boards may be opened again once the disk has room for them.
    pub fn looks_for_room(&mut self)
        ensures { self.new ≡ self.old }
    {
        if let Some(scribe) = &self.scribe {
            self.service.takes_boards(scribe.has_room());
        }
    }
}

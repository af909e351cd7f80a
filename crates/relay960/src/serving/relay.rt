//! What is served: boards and connections, and the journal that keeps the boards, if there is one.

ghost use Rattle.std.specs.Prelude.{◌≡◌, ◌*◌, true, IfOk, IsSome, None, is_some};
ghost use Rattle.relay_durable.specs.Keeping.{IsJournalOf};
ghost use Rattle.relay_durable.specs.Record.{is_settled};
ghost use Rattle.relay960.specs.Serving.{GoesOn, IsNew};

use crate::failure::Device;
use crate::journal::{JournalDamage, Opened, line_of, open_journal};
use crate::serving::fault::ServeFault;
use chained_lines::{StableFile, StableStorage};
use relay_durable::DurableService;
use relay_hall::Hall;
use relay_journal::Unfit;
use relay_service::Service as RelayService;
use relay960_words::Service;
use std::alloc::Global;
use std::fs::{File, Files};

/// How many milliseconds a second has.
const SECOND_MILLIS: u64 = 1000;

/// How many milliseconds a board waits for its operator to come back.
fn grace_of(service: &Service) -> u64
    ensures { result ≡ service.now.grace * 1000 }
{
    u64::from(service.grace) * SECOND_MILLIS
}

/// The boards and connections of the main port. Without a journal there are none yet; with one there are the boards that it leads to, and
/// all that they have is on the disk.
///
/// # Errors
///
/// The journal could not be opened or written, it is none that a relay with these limits can go on with, or there was no memory.
pub(super) fn relay_of<'a, R: Files<File = File> + Eprint>(
    rt: &R,
    alloc: Global,
    service: &Service<'a>,
) -> Result<DurableService<StableFile>, ServeFault<'a>>
    ensures new { service.now.journal ≡ None → IfOk result (λ relay. IsNew service.now.limits service.now.grace relay) }
    ensures goes_on { IsSome service.now.journal → IfOk result (λ relay. GoesOn service.now.limits service.now.grace relay.service) }
    ensures settled { IfOk result (λ relay. is_settled relay ≡ true) }
{
    match service.journal {
        Some(path) => kept_relay(rt, alloc, service, path),
        None => new_relay(alloc, service),
    }
}

/// A relay without boards, and without a journal.
///
/// # Errors
///
/// There was no memory.
fn new_relay<'a>(
    alloc: Global,
    service: &Service,
) -> Result<DurableService<StableFile>, ServeFault<'a>>
    ensures { IfOk result (λ relay. IsNew service.now.limits service.now.grace relay) }
{
    match RelayService::new(alloc, service.limits, grace_of(service), service.grace > 0) {
        Ok(relay) => Ok(DurableService::without_journal(alloc, relay)),
        Err(_) => Err(ServeFault::OutOfMemory),
    }
}

/// The relay that goes on with the journal with this path. All that its boards have is on the disk.
///
/// # Errors
///
/// As `relay_of`.
fn kept_relay<'a, R: Files<File = File> + Eprint>(
    rt: &R,
    alloc: Global,
    service: &Service,
    path: &'a str,
) -> Result<DurableService<StableFile>, ServeFault<'a>>
    ensures goes_on { IfOk result (λ relay. GoesOn service.now.limits service.now.grace relay.service) }
    ensures settled { IfOk result (λ relay. is_settled relay ≡ true) }
{
    let opened = open_journal(rt, alloc, path)?;
    let mut relay = match go_on(alloc, service, opened) {
        Ok(relay) => relay,
        Err(Unfit::Refused(at)) => {
            return Err(ServeFault::damaged(path, JournalDamage::Refused(line_of(at))));
        }
        Err(Unfit::OutOfMemory) => return Err(ServeFault::OutOfMemory),
    };
    if let Err(reason) = relay.commit() {
        return Err(ServeFault::unwritten(Device::File(path), reason));
    }
    report(rt, path, relay.hall());
    Ok(relay)
}

/// The relay that goes on with a journal. Its clock begins at 0. What has ended is not in the journal yet.
///
/// # Errors
///
/// A hall with the limits of this service refuses an entry, or there was no memory.
fn go_on(
    alloc: Global,
    service: &Service,
    opened: Opened,
) -> Result<DurableService<StableFile>, Unfit>
    requires journal { IsJournalOf ⟦<StableFile as StableStorage>⟧.contents ⟦<StableFile as StableStorage>⟧.synced opened.journal opened.entries.items }
    ensures goes_on { IfOk result (λ relay. GoesOn service.now.limits service.now.grace relay.service) }
    ensures kept { IfOk result (λ relay. is_some relay.scribe ≡ true) }
{
    let Opened { journal, entries } = opened;
    DurableService::recover(
        alloc,
        service.limits,
        grace_of(service),
        0,
        service.grace > 0,
        &entries,
        journal,
    )
}

/// Says on standard error what boards a journal has led to, if any: `journal FILE: 12 boards, 340 moves`.
fn report<R: Eprint>(rt: &R, path: &str, hall: &Hall) {
    let boards = hall.len();
    if boards == 0 {
        return;
    }
    let mut moves: u64 = 0;
    for at in 0..boards {
        if let Some(shown) = hall.board(at) {
            moves = moves.saturating_add(u64::from(shown.plies()));
        }
    }
    let _ = eprintln!(rt; "journal {path}: {boards} boards, {moves} moves");
}

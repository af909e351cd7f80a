//! The keys that connections hold, and those whose boards wait for a connection to come back.

ghost use Rattle.std.specs.Prelude.{◌≡◌, ◌<◌, ◌++◌, ◌∷◌, [], vec_len, is_some, true, false, slice_get, None, IfOk, IfSome, OnOk, OnErr};
ghost use Rattle.relay_hall.specs.Holders.{AllRunOut, IsNextDue, departure, has_run_out, is_waiting, presence_of, with_newcomer, without_one, HasRunOut, NoneHasRunOut, OthersStay, stand_once};
ghost use Rattle.relay_hall.specs.Holding.{IsDue};
ghost use Rattle.relay_hall.specs.Keys.{same_key};
ghost use Rattle.std.proofs.Props.{props};

use crate::key::Key;
use crate::presence::Presence;
use std::alloc::{AllocError, Global};

/// A key that connections hold, or held.
#[derive(Clone, Copy)]
struct Holder {
    key: Key,
    presence: Presence,
}

/// The keys that connections hold, and those whose boards wait, each once (`once`).
#[derive(Drop)]
pub(crate) struct Holders {
    rows: Vec<Holder>,
    ghost once: { stand_once rows.items ≡ true } by { Prim.hlevel props },
}

/// What happened to a key when one of its connections went.
#[derive(Clone, Copy)]
pub(crate) enum Departure {
    /// Another connection with it remains.
    OneOfMore,
    /// Its boards wait.
    Waits,
    /// No other connection remains, and its boards are to be ended now.
    Last,
}

impl Departure {
    /// What happened to a key that now has this presence.
    fn of(presence: Presence) -> Departure
        ensures { result ≡ departure (Some presence) }
    {
        match presence {
            Presence::Here(_) => Departure::OneOfMore,
            Presence::Waits(_) => Departure::Waits,
        }
    }
}

impl Holders {
    /// No keys.
    pub(crate) fn new(alloc: Global) -> Holders
        ensures { result.rows.items ≡ [] }
    {
        Holders {
            rows: Vec::new(alloc),
        }
    }

    /// The index of the key.
    fn index_of(&self, key: &Key) -> Option<usize>
        ensures within { IfSome result (λ at. at < vec_len self.now.rows) }
        ensures found { IfSome result (λ at. IfSome (slice_get self.now.rows.items at) (λ holder. same_key key.now holder.key ≡ true)) }
        ensures missing { result ≡ None → presence_of key.now self.now.rows.items ≡ None }
    {
        for at in 0..self.rows.len() {
            if key.is_same(&self.rows[at].key) {
                return Some(at);
            }
        }
        None
    }

    /// Whether a connection with this key exists, or its boards wait.
    pub(crate) fn has(&self, key: &Key) -> bool
        ensures { result ≡ is_some (presence_of key.now self.now.rows.items) }
    {
        self.index_of(key).is_some()
    }

    /// A connection with this key has come. Its boards wait no longer; returns whether they did.
    ///
    /// # Errors
    ///
    /// There was no memory, or there are as many such connections as can be counted. Nothing has changed.
    pub(crate) fn arrive(&mut self, key: &Key) -> Result<bool, AllocError>
        ensures there { OnOk result (is_some (presence_of key.now self.new.rows.items) ≡ true) }
        ensures counted { OnOk result (presence_of key.now self.new.rows.items ≡ with_newcomer (presence_of key.now self.old.rows.items)) }
        ensures others { OthersStay key.now self.old.rows.items self.new.rows.items }
        ensures waited { IfOk result (λ waited. waited ≡ is_waiting (presence_of key.now self.old.rows.items)) }
        ensures unchanged { OnErr result (self.new.rows.items ≡ self.old.rows.items) }
    {
        let Some(at) = self.index_of(key) else {
            self.enter(*key)?;
            return Ok(false);
        };
        let Some(presence) = self.rows[at].presence.with_one_more() else {
            return Err(AllocError);
        };
        let waited = self.rows[at].presence.is_due(None);
        self.rows[at].presence = presence;
        Ok(waited)
    }

    /// Enters a key that has not been entered yet.
    fn enter(&mut self, key: Key) -> Result<(), AllocError>
        requires { presence_of key self.old.rows.items ≡ None }
        ensures entered { OnOk result (self.new.rows.items ≡ self.old.rows.items ++ record { key = key; presence = Presence.Here 1 } ∷ []) }
        ensures unchanged { OnErr result (self.new.rows.items ≡ self.old.rows.items) }
    {
        self.rows.reserve(1)?;
        self.rows.push_reserved(Holder {
            key,
            presence: Presence::Here(1),
        });
        Ok(())
    }

    /// A connection with this key goes. If none is left, the key's boards wait until the given time. If they do not wait, they are
    /// to be ended now, and the key is forgotten.
    pub(crate) fn leave(&mut self, key: &Key, until: Option<u64>) -> Departure
        ensures left { presence_of key.now self.new.rows.items ≡ without_one (presence_of key.now self.old.rows.items) until }
        ensures others { OthersStay key.now self.old.rows.items self.new.rows.items }
        ensures answer { result ≡ departure (presence_of key.now self.new.rows.items) }
    {
        let Some(at) = self.index_of(key) else {
            return Departure::Last;
        };
        let Some(presence) = self.rows[at].presence.with_one_less(until) else {
            let _ = self.rows.remove(at);
            return Departure::Last;
        };
        self.rows[at].presence = presence;
        Departure::of(presence)
    }

    /// Removes the first key whose boards have waited until now; without a time, the first whose boards wait.
    pub(crate) fn expire(&mut self, now: Option<u64>) -> Option<Key>
        ensures due { IfSome result (λ key. HasRunOut now (presence_of key self.old.rows.items)) }
        ensures gone { IfSome result (λ key. presence_of key self.new.rows.items ≡ None) }
        ensures others { IfSome result (λ key. OthersStay key self.old.rows.items self.new.rows.items) }
        ensures none { result ≡ None → NoneHasRunOut now self.old.rows.items }
        ensures unchanged { result ≡ None → self.new.rows.items ≡ self.old.rows.items }
        ensures fewer { IfSome result (λ _. vec_len self.new.rows < vec_len self.old.rows) }
    {
        let at = self.due_index(now)?;
        let Holder { key, .. } = self.rows.remove(at);
        Some(key)
    }

    /// The index of the first key whose boards have waited until now; without a time, of the first whose boards wait.
    fn due_index(&self, now: Option<u64>) -> Option<usize>
        ensures within { IfSome result (λ at. at < vec_len self.now.rows) }
        ensures due { IfSome result (λ at. IfSome (slice_get self.now.rows.items at) (λ holder. IsDue now holder.presence)) }
        ensures none { result ≡ None → NoneHasRunOut now self.now.rows.items }
    {
        for at in 0..self.rows.len() {
            if self.rows[at].presence.is_due(now) {
                return Some(at);
            }
        }
        None
    }

    /// Whether the boards of any key have waited until now; without a time, whether any wait. No key is compared.
    pub(crate) fn has_due(&self, now: Option<u64>) -> bool
        ensures { result ≡ false → NoneHasRunOut now self.now.rows.items }
    {
        self.due_index(now).is_some()
    }

    /// Removes each key whose boards have waited until now; without a time, each whose boards wait.
    pub(crate) fn expire_all(&mut self, now: Option<u64>)
        ensures { AllRunOut now self.old.rows.items self.new.rows.items }
    {
        while let Some(_key) = self.expire(now) {}
    }

    /// Whether the boards of the key have waited until now; without a time, whether they wait.
    pub(crate) fn has_run_out(&self, key: &Key, now: Option<u64>) -> bool
        ensures { result ≡ has_run_out now (presence_of key.now self.now.rows.items) }
    {
        match self.index_of(key) {
            Some(at) => self.rows[at].presence.is_due(now),
            None => false,
        }
    }

    /// The time at which the next boards are to be ended.
    pub(crate) fn next(&self) -> Option<u64>
        ensures { IsNextDue self.now.rows.items result }
    {
        let mut next = None;
        for at in 0..self.rows.len() {
            next = self.rows[at].presence.earlier(next);
        }
        next
    }
}

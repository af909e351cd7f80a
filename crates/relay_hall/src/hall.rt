//! A hall: its boards, the keys of those who are there, and time.

ghost use Rattle.std.specs.Prelude.{◌≡◌, ◌&&◌, true, not, nat_lt, cond, is_some, length, option_map, slice_get, Some, None, IfOk, IfSome, MatchOption, OnErr, OnOk, string_bytes};
ghost use Rattle.std.specs.Map.{lookup};
ghost use Rattle.relay_core.specs.Name.{same_name};
ghost use Rattle.relay_messages.specs.Answers.{answer_text};
ghost use Rattle.relay_messages.specs.declared.answer.Answer.TheVariants.{Fault};
ghost use Rattle.relay_messages.specs.declared.fault.MessageFault.TheVariants.{BadField, NotJson};
ghost use Rattle.relay_pushing.specs.Connections.{OwnsAny};
ghost use Rattle.live_board.specs.Accounts.{account_of};
ghost use Rattle.relay_hall.specs.Meeting.{Meets};
ghost use Rattle.relay_hall.specs.Holders.{AllRunOut, IsNextDue, is_waiting, presence_of};
ghost use Rattle.relay_hall.specs.Reading.{place_of, shown_at};
ghost use Rattle.relay_hall.specs.Record.{nobody_yet};
ghost use Rattle.relay_hall.specs.Runs.{IsReached};
ghost use Rattle.relay_hall.specs.Steps.{Makes, tells_of};
ghost use Rattle.relay_hall.specs.Talk.{IsAnsweredBy, IsUnansweredBy};
ghost use Rattle.relay_hall.specs.Times.{Came, Shut, Timed, WentBy, WentWith, has_waited, swept, swept_floor, waits_until};

use crate::floor::Floor;
use crate::handed::Handed;
use crate::holders::Holders;
use crate::key::Key;
use crate::leaver::{Everybody, KeyOwner, Keyless, RunOut};
use crate::owner::Owner;
use crate::shown::Shown;
use c960_game::{Limits, Outcome};
use live_board::Follower;
use relay_core::{Account, BoardName, Reply, Step};
use relay_messages::{Decoder, MessageFault};
use relay_pushing::Conn;
use std::alloc::{AllocError, Global};
use std::marker::Model;

/// The boards of a server, who opened each, and the keys that connections hold. One caller owns it, and tells it what happens; no call
/// waits. Contracts see a `HallRecord`. Nothing is handed out between two calls, and some events lead to what it shows: so all that
/// `laws::whatever_happens` says of every run is true of it at any time.
#[derive(Drop)]
pub struct Hall {
    floor: Floor,
    /// What reads the texts of all connections.
    decoder: Decoder,
    /// The keys that connections hold, and those whose boards wait.
    holders: Holders,
    /// How long boards wait for a connection to come back, in milliseconds.
    grace: u64,
    /// The time, in milliseconds.
    time: u64,
    /// Whether nobody can come back any more.
    is_shut: bool,
}

impl Model for Hall {
    ghost use Rattle.relay_hall.specs.Record.{HallRecord};

    ghost Value = { HallRecord };

    ghost use Rattle.relay_hall.specs.Inner.{IsHall, hall_of};

    ghost view = { hall_of };

    ghost invariant = { IsHall };
}

/// Until when boards wait, if there are any, somebody can come back, and that is later than now.
fn when(owns: bool, is_shut: bool, now: u64, until: u64) -> Option<u64>
    ensures { result ≡ cond (owns && (not is_shut && nat_lt now until)) (Some until) None }
{
    if owns && !is_shut && now < until {
        Some(until)
    } else {
        None
    }
}

/// Ends, as abandoned, the games of boards that have waited until now, and forgets their keys; without a time, of those that wait. Mostly
/// there are none, and then no board is looked at.
fn run_out(floor: &mut Floor, holders: &mut Holders, now: Option<u64>)
    ensures keys { AllRunOut now holders.old.rows.items holders.new.rows.items }
    ensures floor { floor.new.floor ≡ swept_floor floor.old.floor (λ o. has_waited now holders.old.rows.items o.key) }
    ensures handed { floor.new.handed ≡ floor.old.handed }
{
    if !holders.has_due(now) {
        return;
    }
    let left = RunOut {
        holders: &*holders,
        now,
    };
    floor.sweep(&left);
    holders.expire_all(now);
}

impl Hall {
    /// A hall without boards, with room for as many as the limits allow. Boards of a key wait `grace` milliseconds for a connection with
    /// it.
    ///
    /// # Errors
    ///
    /// There was no memory.
    #[tactic(auto, using(crate::proofs::lemmas::Reached::nobody_reached))]
    pub fn new(alloc: Global, limits: Limits, grace: u64) -> Result<Hall, AllocError>
        ensures { IfOk result (λ h. h ≡ nobody_yet limits grace) }
    {
        Ok(Hall {
            floor: Floor::new(alloc, limits)?,
            decoder: Decoder::new(alloc),
            holders: Holders::new(alloc),
            grace,
            time: 0,
            is_shut: false,
        })
    }

    /// Answers a text of a connection, for its owner. Returns the text of the answer, and the follower that was handed out if a follow was
    /// accepted, with the name of its board.
    ///
    /// # Errors
    ///
    /// There was no memory for the text of the answer. The step that the text asks for was made, or none was; what was handed out is
    /// returned even so.
    pub fn hear(
        &mut self,
        conn: &mut Conn,
        speaker: &Owner,
        text: &[u8],
    ) -> (Result<String, AllocError>, Option<Handed>)
        ensures ok { IfOk result.0 (λ s. IsAnsweredBy self.old.floor speaker.now conn.old text.now (string_bytes s) result.1 self.new.floor conn.new) }
        ensures err { OnErr result.0 (IsUnansweredBy self.old.floor speaker.now conn.old text.now result.1 self.new.floor conn.new) }
        ensures rest { self.new ≡ record self.old { floor = self.new.floor } }
        ensures reached { IsReached self.old × IsReached self.new }
    {
        let heard = self.floor.answer(&mut self.decoder, conn, speaker, text);
        (heard, self.floor.take_handed())
    }

    /// Makes a step for this speaker. Whether a connection may make it is for whoever asks to know. Returns the reply, and the follower
    /// that was handed out if a follow was accepted, with the name of its board.
    pub fn step(&mut self, speaker: &Owner, step: &Step) -> (Reply, Option<Handed>)
        ensures made { Makes self.old.floor speaker.now step.now result.0 result.1 self.new.floor }
        ensures rest { self.new ≡ record self.old { floor = self.new.floor } }
        ensures reached { IsReached self.old × IsReached self.new }
    {
        let reply = self.floor.step_of(speaker, step);
        (reply, self.floor.take_handed())
    }

    /// The board of this name and a follower that was handed out of it compare what they know. The follower sees the board's length and
    /// outcome, and its closing if it was closed. Returns the account that it would get if it left now, and the outcome; or None without
    /// such a board. Nothing of what a hall shows changes.
    pub fn meet_at(
        &mut self,
        board: &BoardName,
        follower: &mut Follower,
    ) -> Option<(Account, Option<Outcome>)>
        requires { IfSome (lookup (same_name board.now) self.old.floor.boards) (λ b. follower.old.table ≡ b.table) }
        ensures met { MatchOption (lookup (same_name board.now) self.old.floor.boards) ((result ≡ None) × (follower.new ≡ follower.old))
            (λ b. (result ≡ Some (account_of follower.new.part, b.game.outcome)) × Meets b follower.old follower.new) }
        ensures unchanged { self.new ≡ self.old }
    {
        self.floor.meet_at(board, follower)
    }

    /// The text of the answer to a message that is no text, by which nothing changes: `NotJson`.
    ///
    /// # Errors
    ///
    /// There was no memory.
    pub fn hear_binary(&self) -> Result<String, AllocError>
        ensures { IfOk result (λ text. string_bytes text ≡ answer_text (Fault NotJson)) }
    {
        self.floor.fault(MessageFault::NotJson)
    }

    /// The text of the answer to a message that is too long to be read, by which nothing changes: `BadField`. Other breaches get no answer.
    ///
    /// # Errors
    ///
    /// There was no memory.
    pub fn hear_too_long(&self) -> Result<String, AllocError>
        ensures { IfOk result (λ text. string_bytes text ≡ answer_text (Fault BadField)) }
    {
        self.floor.fault(MessageFault::BadField)
    }

    /// The index of a board whose game has changed, in the order of opening: each once since it was last told. That is no promise, and
    /// there is no harm in one too many.
    pub fn take_changed(&mut self) -> Option<usize>
        ensures { self.new ≡ self.old }
    {
        self.floor.take_changed()
    }

    /// Whether a connection that might follow was refused since the last such call. It says how soon one of those is read again, and is no
    /// promise.
    pub fn take_turned_away(&mut self) -> bool
        ensures { self.new ≡ self.old }
    {
        self.floor.take_turned_away()
    }

    /// Whoever serves the boards knows of no vacant slot of the board of this index, or does not know that any more. As long as it is
    /// known, a follow of that board that `hear` may make is refused, and no slot is looked at. That is no promise: a slot may be vacant
    /// again.
    pub fn knows_full(&mut self, at: usize, is_full: bool)
        ensures { self.new ≡ self.old }
    {
        self.floor.knows_full(at, is_full);
    }

    /// From now on boards may be opened, or may not, since there is no room to keep what happens to them: then an open that would be
    /// accepted is refused for want of memory, as any may be.
    pub fn takes_boards(&mut self, takes: bool)
        ensures { self.new ≡ self.old }
    {
        self.floor.takes_boards(takes);
    }

    /// Whether any board belongs to connections with the key of this one. None does if it has no key.
    pub fn owns_any(&self, who: &Owner) -> bool
        ensures owns { result ≡ tells_of self.now.floor who.now OwnsAny }
        ensures reached { IsReached self.now }
    {
        self.floor.has_any_of(who)
    }

    /// The index of the board of this name, in the order of opening. It stays, since no board is removed.
    pub fn place_of(&self, name: &BoardName) -> Option<usize>
        ensures index { result ≡ place_of self.now.floor name.now }
        ensures found { is_some result ≡ is_some (lookup (same_name name.now) self.now.floor.boards) }
        ensures board { IfSome result (λ at. option_map (λ e. e.1) (slice_get self.now.floor.boards at) ≡ lookup (same_name name.now) self.now.floor.boards) }
        ensures reached { IsReached self.now }
    {
        self.floor.place_of(name)
    }

    /// How many boards there are. Their indices are below this.
    pub fn len(&self) -> usize
        ensures len { result ≡ length self.now.floor.boards }
        ensures reached { IsReached self.now }
    {
        self.floor.len()
    }

    /// The board of this index, in the order of opening.
    pub fn board(&self, at: usize) -> Option<Shown<'_>>
        ensures shown { result ≡ shown_at self.now.floor at }
        ensures reached { IsReached self.now }
    {
        self.floor.board(at)
    }

    /// The time at which `tick` ends the next boards, if any wait.
    pub fn next_due(&self) -> Option<u64>
        ensures { IsNextDue self.now.keys result }
    {
        self.holders.next()
    }

    /// Whether the boards of this key wait for a connection with it.
    pub fn waits(&self, key: &Key) -> bool
        ensures { result ≡ is_waiting (presence_of key.now self.now.keys) }
    {
        self.holders.has_run_out(key, None)
    }

    /// A connection with this key has come. Returns whether its boards waited.
    ///
    /// # Errors
    ///
    /// There was no memory, or there are as many such connections as can be counted. Nothing has changed.
    pub fn arrive(&mut self, key: &Key) -> Result<bool, AllocError>
        ensures came { OnOk result (Came self.old key.now self.new) }
        ensures waited { IfOk result (λ waited. waited ≡ is_waiting (presence_of key.now self.old.keys)) }
        ensures unchanged { OnErr result (self.new ≡ self.old) }
    {
        self.holders.arrive(key)
    }

    /// A connection goes. Without a key, the games of its boards are ended as abandoned. With a key, they are if no other connection has it
    /// and the boards do not wait.
    pub fn leave(&mut self, who: &Owner)
        ensures { WentBy self.old who.now.opener who.now.key self.new }
    {
        match &who.key {
            None => self.leave_without(who.opener),
            Some(key) => self.leave_with(key),
        }
    }

    /// The connection of this number, which has no key, goes.
    fn leave_without(&mut self, who: u64)
        ensures { WentBy self.old who None self.new }
    {
        self.floor.sweep(&Keyless(who));
    }

    /// Until when the boards of the key wait, if it has any, somebody can come back, and there is a grace.
    fn waits_until(&self, key: &Key) -> Option<u64>
        ensures { result ≡ waits_until self.now key.now }
    {
        let asks = Owner {
            key: Some(*key),
            opener: 0,
        };
        let owns = self.floor.has_any_of(&asks);
        let until = self.time.saturating_add(self.grace);
        when(owns, self.is_shut, self.time, until)
    }

    /// A connection with this key goes.
    fn leave_with(&mut self, key: &Key)
        ensures { WentWith self.old key.now self.new }
    {
        let until = self.waits_until(key);
        let _ = self.holders.leave(key, until);
        let left = KeyOwner {
            key: *key,
            is_left: !self.holders.has(key),
        };
        self.floor.sweep(&left);
    }

    /// The time is this, or was already later. Games of boards that have waited until then are ended as abandoned.
    pub fn tick(&mut self, now: u64)
        ensures { Timed self.old now self.new }
    {
        run_out(&mut self.floor, &mut self.holders, Some(now));
        self.time = self.time.max(now);
    }

    /// Nobody can come back any more. Games of boards that wait are ended as abandoned.
    pub fn shut(&mut self)
        ensures { Shut self.old self.new }
    {
        run_out(&mut self.floor, &mut self.holders, None);
        self.is_shut = true;
    }

    /// Ends, as abandoned, each game that is not over.
    pub fn end_all(&mut self)
        ensures { self.new ≡ swept self.old (λ _. true) }
    {
        self.floor.sweep(&Everybody);
    }
}

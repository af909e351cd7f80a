//! What changes at boards, and who is told of it: those who follow them, those who watch them, and the log.

use super::Common;
use crate::client::{Client, Ends, Role};
use crate::watchers::Watchers;
use c960_game::MOST_BOARDS;
use relay_hall::Owner;
use relay_service::Stage;
use server_loop::Rank;
use std::sync::Wait;
use std::time::Clock;

impl<'a, R: Wait + Clock, W: Watchers> Common<'a, R, W> {
    // ---- Boards.

    /// Notes at which boards the game has changed. Returns whether one of them is as far ahead of its followers as it may be.
    pub(crate) fn gather(&mut self) -> bool {
        let mut is_far_ahead = false;
        for _ in 0..MOST_BOARDS {
            let Some(at) = self.service.take_changed() else {
                break;
            };
            self.watchers.changed(at);
            self.log.ended(self.service.hall(), at);
            is_far_ahead |= self.boards.changes(at, self.queue.len(Rank::Follower));
        }
        is_far_ahead
    }

    /// Those who watch are told what has changed, once all that boards have is on the disk, if they are kept there. Returns whether it is.
    pub(crate) fn tell_watchers(&mut self) -> bool {
        self.commits();
        let Some(hall) = self.service.settled_hall() else {
            return false;
        };
        self.watchers.tell(hall);
        true
    }

    /// Wakes those who watch, if they were told anything. What they have yet to be told is on the disk before, if boards are kept there.
    pub(crate) fn wake_watchers(&mut self) {
        self.commits();
        if let Some(hall) = self.service.settled_hall() {
            self.are_told = self.watchers.wake(hall);
        }
    }

    // ---- What a connection is to them.

    /// Notes what a connection is to boards, by the service: whether it owns one, or follows one.
    pub(super) fn notes_role(&mut self, client: &mut Client) -> Result<(), Ends> {
        let role = self.role(client.number(), client.role);
        if role == client.role {
            return Ok(());
        }
        self.leaves_board(client);
        if let Role::Follower(at) = role {
            self.boards.add(at, client.number())?;
            self.counts_followers(at);
        }
        client.role = role;
        Ok(())
    }

    /// What a connection is to boards that was this before.
    fn role(&self, number: u64, was: Role) -> Role {
        let follows = self.service.stage(number) == Some(Stage::Follows);
        match (self.service.place(number), was) {
            (Some(at), _) if follows => Role::Follower(at),
            (_, Role::Owner(_)) => was,
            _ if self.service.is_owner(number) => Role::Owner(self.first_board(number)),
            _ => Role::Other,
        }
    }

    /// The index of the first board, in the order of opening, that belongs to the key of a connection, or 0 if none does.
    fn first_board(&self, number: u64) -> usize {
        let hall = self.service.hall();
        let Some(Owner { key: Some(key), .. }) = self.service.owner(number) else {
            return 0;
        };
        (0..hall.len())
            .find(|at| hall.board(*at).is_some_and(|shown| shown.belongs_to(&key)))
            .unwrap_or(0)
    }

    /// A connection follows its board no more, if it did.
    pub(super) fn leaves_board(&mut self, client: &mut Client) {
        let Role::Follower(at) = client.role else {
            return;
        };
        self.boards.remove(at, client.number());
        self.counts_followers(at);
        if self.service.was_cut(client.number()) {
            self.log.cut(self.service.hall(), at);
        }
        client.role = Role::Other;
    }

    /// Tells the service whether a board has as many followers as it may have. Else each refused follow would look at all slots, each of
    /// which is its own word of memory.
    fn counts_followers(&mut self, at: usize) {
        self.service.knows_full(at, self.boards.is_full(at));
    }
}

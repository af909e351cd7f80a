//! The text that was made last.

ghost use Rattle.std.specs.Prelude.{◌≡◌, IsTrue, Some, OnOk};
ghost use Rattle.relay_core.specs.declared.reply.Taken.{Taken};
ghost use Rattle.relay_pushing.specs.Pushing.{text_of};

use relay_core::{Reply, Taken};
use relay_messages::{Answer, encode};
use std::alloc::{AllocError, Global};
use std::marker::Model;

/// The text of a take's answer, kept until another one is asked for. Followers of a board are mostly sent the same one after another: it is
/// made once for all of them. To a contract it is the answer that it has the text of, if there is one.
#[derive(Drop)]
pub struct LastText {
    alloc: Global,
    taken: Option<Taken>,
    text: String,
}

impl Model for LastText {
    ghost use Rattle.std.specs.Prelude.{Option, string_bytes};
    ghost use Rattle.relay_core.specs.declared.reply.Taken.{Taken};
    ghost use Rattle.relay_pushing.specs.Pushing.{IsTextOf};

    ghost Value = { Option Taken };

    ghost view = { λ last. last.taken };

    ghost invariant = { λ last. IsTextOf last.taken (string_bytes last.text) };
}

impl LastText {
    /// No text yet.
    pub fn new(alloc: Global) -> LastText {
        LastText {
            alloc,
            taken: None,
            text: String::new(alloc),
        }
    }

    /// Makes the text of this answer, if it is not the one that it has.
    ///
    /// # Errors
    ///
    /// There was no memory for the text.
    pub fn make(&mut self, taken: Taken) -> Result<(), AllocError>
        ensures { OnOk result (self.new ≡ Some taken) }
    {
        if self.is_of(&taken) {
            return Ok(());
        }
        self.text = encode(self.alloc, &Answer::Reply(Reply::Took(taken)))?;
        self.taken = Some(taken);
        Ok(())
    }

    /// Whether it has the text of this answer.
    fn is_of(&self, taken: &Taken) -> bool
        ensures { IsTrue result → self.now ≡ Some taken.now }
    {
        match &self.taken {
            Some(made) => made == taken,
            None => false,
        }
    }

    /// The text.
    pub fn as_str(&self) -> &str
        ensures { (taken : Taken) → self.now ≡ Some taken → result.now ≡ text_of taken }
    {
        self.text.as_str()
    }
}

//! Texts that are made of pieces, and what they are put into: a text with memory of its own, or a space of a fixed size.

ghost use Rattle.std.specs.Prelude.{◌≡◌, ◌≤◌, ◌+◌, ◌++◌, ℕ, List, Bool, IfOk, length, min, string_bytes};
ghost use Rattle.std.specs.List.{flat_map};

use arrayvec::ArrayVec;
use std::alloc::{AllocError, Global};

/// How many bytes the pieces have, or the greatest number if there are more.
fn bytes_in(pieces: &[&str]) -> usize
    ensures { result ≡ min (length (flat_map (λ piece. piece.now) pieces.now)) 18446744073709551615 }
{
    let mut count: usize = 0;
    for piece in pieces {
        count = count.saturating_add(piece.len());
    }
    count
}

/// What texts are put into, one behind the other.
pub trait TextRoom {
    /// Whether a text was put behind what was there, which leads to what is there.
    ghost puts: { Self → List ℕ → Bool → Self → Type 0 };

    /// Puts the pieces there, one after the other, if there is room for all of them. In a space of a fixed size there has to be room for
    /// one byte more, so that a line feed fits behind them. Returns whether there was room.
    fn put(&mut self, pieces: &[&str]) -> bool
        ensures { puts self.old (flat_map (λ piece. piece.now) pieces.now) result self.new };
}

/// The pieces one after the other, in memory that is taken once.
///
/// # Errors
///
/// There was no memory for the text.
#[inline(always)]
fn text_of_pieces(alloc: Global, pieces: &[&str]) -> Result<String, AllocError>
    ensures { IfOk result (λ text. string_bytes text ≡ flat_map (λ piece. piece.now) pieces.now) }
{
    let mut text = String::with_capacity(alloc, bytes_in(pieces))?;
    for piece in pieces {
        text.push_str(piece)?;
    }
    Ok(text)
}

/// Room for a text of its own, which is made as it is put there.
#[derive(Drop)]
pub struct OwnText {
    /// What gives the memory.
    pub alloc: Global,
    /// The text, if there was memory for it.
    pub text: Option<String>,
}

impl TextRoom for OwnText {
    ghost use Rattle.std.specs.Prelude.{◌≡◌, IfSome, string_bytes};

    ghost puts = { λ _ text _ made. IfSome made.text (λ own. string_bytes own ≡ text) };

    #[inline(always)]
    fn put(&mut self, pieces: &[&str]) -> bool {
        self.text = text_of_pieces(self.alloc, pieces).ok();
        self.text.is_some()
    }
}

/// Adds a piece for which there is room.
fn push_piece<const ROOM: usize>(space: &mut ArrayVec<u8, ROOM>, piece: &str)
    requires { length space.old.items + length piece.now ≤ ROOM }
    ensures { space.new.items ≡ space.old.items ++ piece.now }
{
    let _ = space.try_extend_from_slice(piece.as_bytes());
}

/// No memory is taken.
impl<const ROOM: usize> TextRoom for ArrayVec<u8, ROOM> {
    ghost use Rattle.relay_messages.specs.Rooms.{PutsWithin};

    ghost puts = { λ s text fits t. PutsWithin ROOM s.items text fits t.items };

    #[inline(always)]
    fn put(&mut self, pieces: &[&str]) -> bool {
        if self.remaining_capacity() <= bytes_in(pieces) {
            return false;
        }
        for piece in pieces {
            push_piece(self, piece);
        }
        true
    }
}

//! Answerers, which answer the lines of a run.

ghost use Rattle.std.specs.Prelude.{ℕ, List, take, Option, Some, None, IfOk, OnErr};
ghost use Rattle.std.specs.Cow.{cow_slice_items};
ghost use Rattle.relay960_engines.specs.declared.kept_line.TheConstants.{KEPT};

use std::alloc::{AllocError, Global};
use std::borrow::CowSlice;

/// It answers lines, each of which leads from one state to the next. No answer depends on what comes after the first
/// `KEPT` bytes of its line.
pub trait Answerer {
    /// In a state a line is answered by these bytes, or by none if there was no memory for them, which leads to a state.
    ghost gives: { Self → List ℕ → Option (List ℕ) → Self → Type 0 };

    /// The bytes of the answer, with its line feeds.
    ///
    /// # Errors
    ///
    /// There was no memory for the bytes of an answer. Even so, the state is the one after it.
    fn answer(&mut self, alloc: Global, line: &[u8]) -> Result<CowSlice<'static, u8>, AllocError>
        ensures given { IfOk result (λ text. gives self.old line.now (Some (cow_slice_items text)) self.new) }
        ensures unanswered { OnErr result (gives self.old line.now None self.new) };

    /// Even if there was no memory for the bytes, some bytes exist that would have been the answer.
    ghost spelt: { (s : Self) (l : List ℕ) (t : Self) → gives s l None t → (bytes : List ℕ) × gives s l (Some bytes) t };

    /// A line is answered as its first `KEPT` bytes are.
    ghost cut: { (s : Self) (l : List ℕ) (bytes : Option (List ℕ)) (t : Self) → gives s (take KEPT l) bytes t → gives s l bytes t };
}

//! Laws of the definitions.

ghost use Rattle.std.specs.Prelude.{◌≡◌, ◌≢◌, ◌<◌, ◌↔◌, ℕ, List, length, take, Ok, Err};
ghost use Rattle.relay_messages.specs.Decoding.{decoded, watch_decoded};

use crate::fault::MessageFault;
use crate::reading::MOST_BYTES;
use crate::watch_command::WatchCommand;
use relay_core::Step;

/// A text means what its first bytes mean, if they are more than a text may have, so that no later byte of a line has to be kept.
#[tactic(auto, using(crate::proofs::lemmas::Decoding::decoded_front))]
pub fn the_first_bytes_decide()
    ensures { (n : ℕ) (text : List ℕ) → MOST_BYTES < n → decoded (take n text) ≡ decoded text }
{}

/// A text of more bytes than a text may have is `BadField`, whatever it contains.
#[tactic(auto, using(crate::proofs::lemmas::Decoding::decoded_long))]
pub fn long_texts_are_bad_fields()
    ensures { (text : List ℕ) → MOST_BYTES < length text → decoded text ≡ Err MessageFault.BadField }
{}

/// No text means that there was no memory: that fault depends only on the machine.
#[tactic(auto, using(crate::proofs::lemmas::Decoding::never_memory))]
pub fn no_text_says_want_of_memory()
    ensures { (text : List ℕ) → decoded text ≢ Err MessageFault.OutOfMemory }
{}

/// A text gives a command of the main port there exactly if it gives that command on the watch port.
pub fn commands_are_the_same_on_both_ports()
    ensures { (text : List ℕ) (step : Step) → (decoded text ≡ Ok step) ↔ (watch_decoded text ≡ Ok (WatchCommand.Step step)) }
{}

/// A text that gives `boards` on the watch port gives no command on the main port.
#[tactic(auto, using(crate::proofs::Ports::boards_unknown))]
pub fn boards_is_unknown_on_the_main_port()
    ensures { (text : List ℕ) → watch_decoded text ≡ Ok WatchCommand.Boards → decoded text ≡ Err MessageFault.UnknownCommand }
{}

/// No text means on the watch port that there was no memory.
#[tactic(auto, using(crate::proofs::lemmas::Decoding::watch_never_memory))]
pub fn no_text_says_want_of_memory_on_the_watch_port()
    ensures { (text : List ℕ) → watch_decoded text ≢ Err MessageFault.OutOfMemory }
{}

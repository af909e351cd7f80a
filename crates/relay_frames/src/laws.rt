//! Laws of reading: what the calls of a peer mean together.

ghost use Rattle.std.specs.Prelude.{◌≡◌, ℕ, List, ◌++◌, length, Option, Some};
ghost use Rattle.std.specs.List.{concat};
ghost use Rattle.websocket.specs.declared.protocol.frame.header.FrameHeader.{FrameHeader};
ghost use Rattle.websocket.specs.Frame.{encode_frame};
ghost use Rattle.websocket.specs.FrameHeader.{IsHeader, encode_header};
ghost use Rattle.relay_frames.specs.declared.breach.Breach.{Breach};
ghost use Rattle.relay_frames.specs.Hearing.{EndsWithTheLast, IsSmall, hear_all, hear_pieces};
ghost use Rattle.relay_frames.specs.Reading.{Message, breaks, fed, head_breach, next_step, opened};
ghost use Rattle.relay_frames.specs.Writing.{behind_bytes, read_written};

/// The events of a peer depend only on the bytes that came from it: fed in any pieces they mean the same as fed at once, and
/// what is then known of the peer is the same.
#[tactic(auto, using(crate::proofs::lemmas::Hearings::pieces_are_one))]
pub fn however_it_is_cut()
    ensures { (pieces : List (List ℕ)) → hear_pieces pieces ≡ hear_all (fed opened (concat pieces)) }
{}

/// After a close or a breach there are no events, whatever still comes.
#[tactic(auto, using(crate::proofs::lemmas::Hearings::heard_ends_with_the_last))]
pub fn nothing_behind_the_last()
    ensures { (pieces : List (List ℕ)) → EndsWithTheLast (hear_pieces pieces).told }
{}

/// What is kept of a peer whose bytes were read is small: of a message no more than it may have, and besides that less than a frame.
pub fn little_is_kept()
    ensures { (pieces : List (List ℕ)) → IsSmall (hear_pieces pieces).then }
{}

/// A frame that a peer wrote is read as that frame, whatever follows it. The event is the rule that its head breaks, or
/// what its payload says.
#[tactic(auto, using(crate::proofs::Written::written_is_read))]
pub fn what_is_written_is_read()
    ensures { (begun : Option Message) (h : FrameHeader) (payload rest : List ℕ) → IsHeader h (length payload)
        → next_step (behind_bytes begun (encode_frame h payload ++ rest)) ≡ read_written begun h payload rest (head_breach begun h (length payload)) }
{}

/// A head that breaks a rule is reported before a byte of its payload has come.
#[tactic(auto, using(crate::proofs::Written::breach_is_told))]
pub fn a_breach_is_told_at_the_head()
    ensures { (begun : Option Message) (h : FrameHeader) (n : ℕ) (b : Breach) → IsHeader h n → head_breach begun h n ≡ Some b
        → next_step (behind_bytes begun (encode_header h n)) ≡ breaks b }
{}

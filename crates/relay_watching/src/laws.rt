//! Laws: what each spectator is sent, whatever happens, and how it is read.

ghost use Rattle.std.specs.Prelude.{List};
ghost use Rattle.relay_watching.specs.Audience.{EachIsServed, Happening, after_all, nobody_yet};
ghost use Rattle.relay_watching.specs.Course.{Course};
ghost use Rattle.relay_watching.specs.Promised.{Joining, promised, promised_texts};
ghost use Rattle.relay_watching.specs.Read.{AreRead, AreShort, promised_messages};

/// For every spectator at any time, whatever was played, however the game ended, whoever joined at whatever places, however few bytes were
/// written at a time, and whatever other frames were written between, in any order: the bytes written to it of what it is promised, then
/// those that are due, are the frames, each once and in order, of the answer to its joining, of the log from there to the present, and
/// of its end and the close. In all the bytes on its connection other frames come only between whole ones, and none after the close.
#[tactic(auto, using(crate::proofs::Audiences::each_is_served))]
pub fn in_any_order()
    ensures { (happened : List Happening) → EachIsServed (after_all nobody_yet happened) }
{}

/// The bytes that are promised are read, frame by frame, as the texts that are promised, and then as the close after the end.
#[tactic(auto, using(crate::proofs::Readings::promised_is_read))]
pub fn what_is_promised_is_read()
    ensures { (c : Course) (j : Joining) → AreShort (promised_texts c j) → AreRead (promised c j) (promised_messages c j) }
{}

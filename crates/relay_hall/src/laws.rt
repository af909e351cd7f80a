//! What is true of a hall whatever happens: a law of the definitions that the contracts of `Hall` cite.

ghost use Rattle.std.specs.Prelude.{◌≡◌, ℕ, List, [], Option, Some, None, is_some, true, false};
ghost use Rattle.std.specs.Map.{lookup};
ghost use Rattle.c960_board.specs.declared.parts.Parts.{Parts};
ghost use Rattle.c960_game.specs.Game960.{Game960};
ghost use Rattle.c960_game.specs.Limits.{LimitNumbers};
ghost use Rattle.relay_core.specs.History.{History, log, start_of};
ghost use Rattle.relay_core.specs.Name.{same_name};
ghost use Rattle.relay_core.specs.Stands.{Stands};
ghost use Rattle.relay_hall.specs.declared.handed.Handed.{Handed};
ghost use Rattle.relay_hall.specs.declared.owner.Owner.{Owner};
ghost use Rattle.relay_hall.specs.Holders.{presence_of};
ghost use Rattle.relay_hall.specs.Meeting.{BoardsStay};
ghost use Rattle.relay_hall.specs.Record.{HallBoard, HallRecord, nobody_yet, plain_of};
ghost use Rattle.relay_hall.specs.Talk.{IsAnsweredBy, IsRepliedBy, IsUnansweredBy};
ghost use Rattle.relay_hall.specs.Runs.{AllSayWhileThere, AreCounted, HallEvent, HallTold, HallRuns, HallStep, IsForsaken, IsHandedOf, IsInTime, IsOneStep, IsOrderly, Replied, Says, Silent, counts_after, has_gone};

use relay_core::laws::histories::logs_are_legal_games;
use relay_core::{Reply, Step};

/// Whatever happens, in any order, under any limits and any grace:
///
/// - the boards stand at the history of the steps and of the hall's own endings (`stands`);
/// - each board's log is the moves of the accepted submits to that name, a legal game from the start of its accepted open (`games`);
/// - a game that goes on has somebody: its connection, if that has no key, has not gone (`there`); with a key, a connection has the key, or
///   the boards wait until a time that has not come, and somebody can come back (`held`);
/// - each key is held by as many connections as came with it and did not go (`counted`);
/// - an event that is no step ends a game only if nobody has the board any more, its grace is over, nobody can come back, or all games are
///   ended (`kept`);
/// - a follower that is handed out is at the table of the board of that name, with that board's moves up to its place (`handed`).
pub fn whatever_happens()
    ensures stands { (limits : LimitNumbers) (grace : ℕ) (es : List HallEvent) (ts : List HallTold) (h : History) (l : HallRecord)
        → HallRuns (nobody_yet limits grace) [] es ts h l → Stands limits (plain_of l.floor) h }
    ensures games { (limits : LimitNumbers) (grace : ℕ) (es : List HallEvent) (ts : List HallTold) (h : History) (l : HallRecord)
        → HallRuns (nobody_yet limits grace) [] es ts h l
        → (name : List ℕ) (b : HallBoard) → lookup (same_name name) l.floor.boards ≡ Some b
        → Game960 b.game.start b.game.log × (b.game.log ≡ log h name) × (start_of h name ≡ Some b.game.start) }
    ensures there { (limits : LimitNumbers) (grace : ℕ) (es : List HallEvent) (ts : List HallTold) (h : History) (l : HallRecord)
        → HallRuns (nobody_yet limits grace) [] es ts h l → IsOrderly es
        → (name : List ℕ) (b : HallBoard) → lookup (same_name name) l.floor.boards ≡ Some b
        → b.owner.key ≡ None → b.game.outcome ≡ None → has_gone b.owner.opener es ≡ false }
    ensures held { (limits : LimitNumbers) (grace : ℕ) (es : List HallEvent) (ts : List HallTold) (h : History) (l : HallRecord)
        → HallRuns (nobody_yet limits grace) [] es ts h l → AllSayWhileThere (λ key. 0) es
        → (name : List ℕ) (b : HallBoard) → lookup (same_name name) l.floor.boards ≡ Some b → (key : List ℕ) → b.owner.key ≡ Some key
        → b.game.outcome ≡ None → IsInTime l.time l.shut (presence_of key l.keys) }
    ensures counted { (limits : LimitNumbers) (grace : ℕ) (es : List HallEvent) (ts : List HallTold) (h : History) (l : HallRecord)
        → HallRuns (nobody_yet limits grace) [] es ts h l → AreCounted (counts_after (λ key. 0) es) l.keys }
    ensures kept { (k : HallRecord) (e : HallEvent) (l : HallRecord) → HallStep k e Silent l
        → (name : List ℕ) (b c : HallBoard) → lookup (same_name name) k.floor.boards ≡ Some b → lookup (same_name name) l.floor.boards ≡ Some c
        → is_some b.game.outcome ≡ false → is_some c.game.outcome ≡ true → IsForsaken k e l b.owner }
    ensures handed { (k : HallRecord) (speaker : Owner) (who : ℕ) (name : List ℕ) (from : Option ℕ) (joined : ℕ) (position : Parts) (handed : Option Handed) (l : HallRecord)
        → HallStep k (Says speaker (Step.Follow who name from)) (Replied (Reply.Following joined position) handed) l
        → IsHandedOf k.floor name joined position handed }
{
    logs_are_legal_games();
}

/// A text, or a step that was read from one, makes one step at most, as one event, or nothing: what replies to a step or answers a text
/// does to a hall is a run of one event or none.
pub fn one_step_at_most()
    ensures replied { (k l : HallRecord) (speaker : Owner) (opened : List (List ℕ)) (step : Step) (reply : Reply) (handed : Option Handed) (now : List (List ℕ))
        → IsRepliedBy k.floor speaker opened step reply handed l.floor now → l ≡ record k { floor = l.floor } → IsOneStep k speaker handed l }
    ensures answered { (k l : HallRecord) (speaker : Owner) (opened : List (List ℕ)) (text bytes : List ℕ) (handed : Option Handed) (now : List (List ℕ))
        → IsAnsweredBy k.floor speaker opened text bytes handed l.floor now → l ≡ record k { floor = l.floor } → IsOneStep k speaker handed l }
    ensures unanswered { (k l : HallRecord) (speaker : Owner) (opened : List (List ℕ)) (text : List ℕ) (handed : Option Handed) (now : List (List ℕ))
        → IsUnansweredBy k.floor speaker opened text handed l.floor now → l ≡ record k { floor = l.floor } → IsOneStep k speaker handed l }
{}

/// Whatever happens, each board stays under its name, at its table and with its start; moves are only added to its log, and a game that is
/// over stays as it is.
pub fn boards_stay()
    ensures step { (k : HallRecord) (e : HallEvent) (t : HallTold) (l : HallRecord) → HallStep k e t l → BoardsStay k.floor l.floor }
    ensures once { (k l : HallRecord) (speaker : Owner) (handed : Option Handed) → IsOneStep k speaker handed l → BoardsStay k.floor l.floor }
{}

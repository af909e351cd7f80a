//! The entries of a journal stand for the boards of its hall, and a restart leads to these boards again.

ghost use Rattle.std.specs.Prelude.{◌≡◌, ◌≤◌, ◌∷◌, ◌++◌, ◌-◌, ◌^◌, ℕ, true, List, [], length, take};
ghost use Rattle.chained_lines.specs.Journals.{IsFrontOf};
ghost use Rattle.chained_lines.specs.Left.{IsLeft};
ghost use Rattle.chained_lines.specs.Lines.{Line, are_lines, file_of, no_seal, read_lines};
ghost use Rattle.c960_game.specs.Limits.{LimitNumbers};
ghost use Rattle.relay_core.specs.History.{History};
ghost use Rattle.relay_hall.specs.Record.{FloorRecord, HallRecord, nobody_yet};
ghost use Rattle.relay_hall.specs.Runs.{AllSayWhileThere, HallEvent, HallTold, HallStep, IsOrderly, IsReached};
ghost use Rattle.relay_journal.specs.declared.entry.Entry.{Entry};
ghost use Rattle.relay_journal.specs.Bodies.{AllBodies, AreFirstOf, SaysEntries, first_body};
ghost use Rattle.relay_journal.specs.Differences.{missing};
ghost use Rattle.relay_journal.specs.Entries.{Journals, entries_at};
ghost use Rattle.relay_journal.specs.Kept.{kept_of, replayed};
ghost use Rattle.relay_journal.specs.Restarting.{IsRefusedAt, Leads, restart, said_from};
ghost use Rattle.relay_journal.specs.Standing.{StandFor};

use chained_lines::laws::{what_is_left_reads_back, what_was_committed_stays};

/// Whatever happens in a hall, the entries that it makes, one after another, stand for its boards: for their names, in the order of
/// opening, their games and their keys.
pub fn entries_stand_for_the_boards()
    ensures { (limits : LimitNumbers) (grace : ℕ) (es : List HallEvent) (ts : List HallTold) (js : List Entry) (k : HallRecord)
        → Journals (nobody_yet limits grace) es ts js k → kept_of k.floor ≡ replayed [] js }
{}

/// What is missing in a journal after an event, as boards alone show it, leads to the boards that there are: whoever compares them needs to
/// know nothing of the event.
pub fn what_is_missing_leads_to_the_boards()
    ensures { (k : HallRecord) (e : HallEvent) (t : HallTold) (l : HallRecord) → IsReached k → HallStep k e t l
        → replayed (kept_of k.floor) (missing (kept_of k.floor) (kept_of l.floor)) ≡ kept_of l.floor }
{}

/// What is missing in a journal after an event, as boards alone show it, is exactly what the event makes: so what is written by comparing
/// is accepted again, too.
pub fn what_is_missing_is_what_an_event_makes()
    ensures { (k : HallRecord) (e : HallEvent) (t : HallTold) (l : HallRecord) → HallStep k e t l
        → missing (kept_of k.floor) (kept_of l.floor) ≡ entries_at k e t l }
{}

/// A hall to which entries are said again, and which accepts each, has the boards that they lead to.
pub fn what_is_said_again_leads_to_the_boards()
    ensures { (limits : LimitNumbers) (grace who : ℕ) (es : List Entry) (h : History) (k : HallRecord)
        → Leads (nobody_yet limits grace) h (said_from who es) k → kept_of k.floor ≡ replayed [] es }
{}

/// What a hall has made is accepted again by a hall of the same limits, but for want of memory, and so are the first of it, however few a
/// crash has left: some run accepts each.
pub fn what_was_made_is_accepted_again()
    ensures { (limits : LimitNumbers) (grace : ℕ) (es : List HallEvent) (ts : List HallTold) (js : List Entry) (k : HallRecord)
        → limits.boards ≤ 2 ^ 32 - 1 → Journals (nobody_yet limits grace) es ts js k
        → (n : ℕ) → (l : HallRecord) × Leads (nobody_yet limits grace) [] (said_from 0 (take n js)) l }
{}

/// Once the lines that stand for some boards are synced, these boards come back: whatever is noted later, and whatever a crash leaves, the
/// entries that are read then lead to these boards, and on from there.
pub fn what_is_on_the_disk_comes_back()
    ensures { (ls more : List Line) (f : FloorRecord) (written : List ℕ) (synced : ℕ) (left : List ℕ) (got : List Entry)
        → are_lines (ls ++ more) ≡ true → StandFor ls f → IsFrontOf written (ls ++ more) → length (file_of no_seal ls) ≤ synced
        → synced ≤ length written → IsLeft written synced left → SaysEntries (read_lines no_seal left) got
        → (later : List Entry) × (replayed [] got ≡ replayed (kept_of f) later) }
{
    what_was_committed_stays();
}

/// Whatever lines stand for boards, a hall of the same limits never refuses the entries that they say, but for want of memory, nor the
/// first of them, however few a crash has left (`never_refused`); and some run accepts each (`accepted`).
pub fn what_stands_for_boards_is_accepted_again()
    ensures never_refused { (ls : List Line) (f : FloorRecord) (grace : ℕ) (es : List Entry) → StandFor ls f → SaysEntries ls es
        → (n at : ℕ) → IsRefusedAt (nobody_yet f.limits grace) (take n es) at → ⊥ }
    ensures accepted { (ls : List Line) (f : FloorRecord) (grace : ℕ) (es : List Entry) → f.limits.boards ≤ 2 ^ 32 - 1 → StandFor ls f → SaysEntries ls es
        → (n : ℕ) → (l : HallRecord) × Leads (nobody_yet f.limits grace) [] (said_from 0 (take n es)) l }
{}

/// A restart is such a run as `relay_hall::laws::whatever_happens` speaks of: nobody says anything who has gone, and whoever says something
/// with a key is there.
pub fn a_restart_is_orderly()
    ensures orderly { (now : ℕ) (es : List Entry) → IsOrderly (restart now es) }
    ensures there { (now : ℕ) (es : List Entry) → AllSayWhileThere (λ key. 0) (restart now es) }
{}

/// Of a journal that a crash has torn the first of its entries are read, none changed and none from elsewhere, and at least those whose
/// lines were synced.
pub fn what_is_read_was_made()
    ensures { (ls : List Line) (es : List Entry) (synced : ℕ) (left : List ℕ) (got : List Entry) → are_lines ls ≡ true → SaysEntries ls es
        → IsLeft (file_of no_seal ls) synced left → SaysEntries (read_lines no_seal left) got → AreFirstOf ls es synced got }
{
    what_is_left_reads_back();
}

/// Whoever notes behind each event what is missing, as boards alone show it, has a journal that stands for the boards: from the first line
/// on, after each event, and once a restart has said the entries again.
pub fn a_journal_follows_its_hall()
    ensures first { (limits : LimitNumbers) (grace : ℕ) (l : Line) → l.body ≡ first_body → StandFor (l ∷ []) (nobody_yet limits grace).floor }
    ensures next { (ls more : List Line) (k : HallRecord) (e : HallEvent) (t : HallTold) (l : HallRecord) → IsReached k → HallStep k e t l
        → StandFor ls k.floor → AllBodies more (missing (kept_of k.floor) (kept_of l.floor)) → StandFor (ls ++ more) l.floor }
    ensures again { (limits : LimitNumbers) (grace : ℕ) (l : Line) (ls : List Line) (es : List Entry) (k : HallRecord) → l.body ≡ first_body
        → AllBodies ls es → Leads (nobody_yet limits grace) [] (said_from 0 es) k → StandFor (l ∷ ls) k.floor }
{}

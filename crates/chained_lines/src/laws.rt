//! What is read of a file of lines, whatever a crash or a change left of it.

ghost use Rattle.std.specs.Prelude.{◌≡◌, ◌≤◌, ◌∷◌, ℕ, true, List, ◌++◌, length, take, None, IsSome};
ghost use Rattle.chained_lines.specs.Journals.{IsFrontOf};
ghost use Rattle.chained_lines.specs.Later.{later_write};
ghost use Rattle.chained_lines.specs.Left.{IsFront, IsLeft, ReadsBack};
ghost use Rattle.chained_lines.specs.Lines.{Line, are_lines, file_of, has_no_feed, last_seal, mark_of, no_seal, read_lines};

/// Whatever bytes stand behind a file of lines, these lines are read first, all of them and in order.
#[tactic(auto, using(crate::proofs::Whole::whole_first))]
pub fn what_is_whole_is_read()
    ensures { (before : List ℕ) (ls : List Line) (junk : List ℕ) → are_lines ls ≡ true
        → read_lines before (file_of before ls ++ junk) ≡ ls ++ read_lines (last_seal before ls) junk }
{}

/// What a crash leaves of a file of lines is read as the first so many of them: at least those that were synced.
#[tactic(auto, using(crate::proofs::Torn::left_reads_back))]
pub fn what_is_left_reads_back()
    ensures { (before : List ℕ) (ls : List Line) (synced : ℕ) (left : List ℕ) → are_lines ls ≡ true → IsLeft (file_of before ls) synced left
        → ReadsBack before ls synced (read_lines before left) }
{}

/// Whatever bytes are read, the lines that are read of them are the bytes at their beginning.
#[tactic(auto, using(crate::proofs::Front::is_front))]
pub fn what_is_read_was_there()
    ensures { (before : List ℕ) (bytes : List ℕ) → IsFront before bytes }
{}

/// Once lines are committed they are read after every crash, first and in order, and behind them the first so many of those that were noted
/// later, some bytes of which were written.
pub fn what_was_committed_stays()
    ensures { (ls more : List Line) (written : List ℕ) (synced : ℕ) (left : List ℕ) → are_lines (ls ++ more) ≡ true
        → IsFrontOf written (ls ++ more) → length (file_of no_seal ls) ≤ synced → synced ≤ length written → IsLeft written synced left
        → (later : ℕ) × (read_lines no_seal left ≡ ls ++ take later more) }
{}

/// What a crash leaves is never taken for damage: behind the lines that are read of it no line begins a write.
pub fn a_crash_is_no_damage()
    ensures { (before : List ℕ) (ls : List Line) (synced : ℕ) (left rest : List ℕ) → are_lines ls ≡ true
        → IsLeft (file_of before ls) synced left → left ≡ file_of before (read_lines before left) ++ rest → later_write rest ≡ None }
{}

/// Damage before a write is seen: if, behind a line feed, the seal and the mark of the first line of a write stand, that line or an earlier
/// one is found, whatever bytes stand before and behind them.
#[tactic(auto, using(crate::proofs::Search::later_is_found))]
pub fn damage_before_a_write_is_seen()
    ensures { (damaged seal more : List ℕ) → length seal ≡ 16 → has_no_feed seal ≡ true
        → IsSome (later_write (damaged ++ 10 ∷ (seal ++ mark_of true ∷ more))) }
{}

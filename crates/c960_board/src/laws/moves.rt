//! Laws of the moves' texts and codes.

ghost use Rattle.std.specs.Prelude.{◌≡◌, ◌↔◌, ◌<◌, ◌≤◌, ℕ, List, Ok, Err, length, take};
ghost use Rattle.c960_board.specs.declared.moves.fault.MoveFault.{MoveFault};
ghost use Rattle.c960_board.specs.Moves.{IsMove, Triple};
ghost use Rattle.c960_board.specs.MoveTexts.{IsMoveFault, MoveText, move_code, move_text};
ghost use Rattle.c960_board.specs.MoveReading.{move_read};

/// What `move_bytes` writes is a text of the move, so that `read_move` reads the move back.
pub fn written_text_is_of_the_move()
    ensures text { (m : Triple) → IsMove m → MoveText m (move_text m) }
    ensures short { (m : Triple) → length (move_text m) ≤ 5 }
{}

/// No move has two texts.
pub fn one_text_for_a_move()
    ensures { (m : Triple) (a b : List ℕ) → MoveText m a → MoveText m b → a ≡ b }
{}

/// No text belongs to two moves.
pub fn one_move_for_a_text()
    ensures { (m n : Triple) (text : List ℕ) → MoveText m text → MoveText n text → m ≡ n }
{}

/// No text of a move has a fault, and no text has two faults.
pub fn one_fault_for_a_text()
    ensures none_of_a_move { (m : Triple) (e : MoveFault) (text : List ℕ) → MoveText m text → IsMoveFault e text → ⊥ }
    ensures one { (e f : MoveFault) (text : List ℕ) → IsMoveFault e text → IsMoveFault f text → e ≡ f }
{}

/// The function that reads a text returns exactly the move, or the first fault, of the text, and its first six bytes are enough for that.
pub fn reading_is_a_function()
    ensures ok { (text : List ℕ) (m : Triple) → (move_read text ≡ Ok m) ↔ MoveText m text }
    ensures fault { (text : List ℕ) (f : MoveFault) → (move_read text ≡ Err f) ↔ IsMoveFault f text }
    ensures cut { (n : ℕ) (text : List ℕ) → 5 < n → move_read (take n text) ≡ move_read text }
{}

/// No code belongs to two moves.
pub fn one_move_for_a_code()
    ensures { (m n : Triple) → IsMove m → IsMove n → move_code m ≡ move_code n → m ≡ n }
{}

/// The codes of moves are the numbers below 20480.
pub fn every_code_is_of_a_move()
    ensures bound { (m : Triple) → IsMove m → move_code m < 20480 }
    ensures every { (code : ℕ) → code < 20480 → (m : Triple) × IsMove m × (move_code m ≡ code) }
{}

//! The laws of the texts that are read.

ghost use Rattle.std.specs.Prelude.{◌≡◌, List, ℕ};
ghost use Rattle.c960_board.specs.Fen.Faults.{IsFault};
ghost use Rattle.c960_board.specs.Fen.Text.{FenText};
ghost use Rattle.c960_board.specs.declared.fen.fault.FenFault.{FenFault};
ghost use Rattle.c960_board.specs.declared.parts.Parts.{Parts};

/// No text belongs to two positions.
pub fn one_position()
    ensures { (text : List ℕ) (p q : Parts) → FenText p text → FenText q text → p ≡ q }
{}

/// No text has two faults, and none has a fault and a position.
pub fn one_fault()
    ensures one { (text : List ℕ) (d e : FenFault) → IsFault d text → IsFault e text → d ≡ e }
    ensures no_position { (text : List ℕ) (e : FenFault) (p : Parts) → FenText p text → IsFault e text → ⊥ }
{}

//! The laws of the texts of positions.

ghost use Rattle.std.specs.Prelude.{◌≤◌, ℕ, List, length};
ghost use Rattle.c960_board.specs.Fen.Canonical.{canonical};
ghost use Rattle.c960_board.specs.Fen.Text.{FenText};
ghost use Rattle.c960_board.specs.Position.{IsPosition};
ghost use Rattle.c960_board.specs.declared.parts.Parts.{Parts};

/// The written text of a position is one of its texts.
pub fn written_is_text()
    ensures { (p : Parts) → IsPosition p → FenText p (canonical p) }
{}

/// The written text of a position has at most 93 bytes.
pub fn written_is_short()
    ensures { (p : Parts) → IsPosition p → length (canonical p) ≤ 93 }
{}

/// What a text spells is a position.
pub fn text_is_of_a_position()
    ensures { (p : Parts) (text : List ℕ) → FenText p text → IsPosition p }
{}

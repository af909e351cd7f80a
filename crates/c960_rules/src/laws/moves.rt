//! What the Laws of Chess say of every legal move (FIDE Laws, Articles 1.4, 3.1, 3.7 to 3.10, 5 and 9; Guidelines II.3).

ghost use Rattle.std.specs.Prelude.{◌≡◌, ◌≢◌, ◌<◌, ◌↔◌, ℕ, IsFalse};
ghost use Rattle.c960_board.specs.declared.parts.Parts.{Parts};
ghost use Rattle.c960_board.specs.declared.piece.Kind.{Kind};
ghost use Rattle.c960_board.specs.declared.piece.Kind.TheVariants.{King};
ghost use Rattle.c960_board.specs.Moves.{IsMove, Triple};
ghost use Rattle.c960_board.specs.Pieces.{man, other};
ghost use Rattle.c960_board.specs.Position.{IsPosition};
ghost use Rattle.c960_board.specs.Cells.{cell_at, has_right};
ghost use Rattle.c960_rules.specs.After.{after};
ghost use Rattle.c960_rules.specs.Castles.{Castles};
ghost use Rattle.c960_rules.specs.Check.{InCheck, IsLawful};
ghost use Rattle.c960_rules.specs.Effects.{CarriesOne, CastlesRightly, IsTakenOn, with_counters};
ghost use Rattle.c960_rules.specs.Legal.{Legal, Mate, Stale};
ghost use Rattle.c960_rules.specs.Progress.{Advances};
ghost use Rattle.c960_rules.specs.Reaches.{Reaches};

/// A legal move does not leave its own king attacked, and does not take the other king (Articles 1.4.1 and 3.9.2).
pub fn legal_moves_are_safe()
    ensures own_king { (p : Parts) (m : Triple) → Legal p m → InCheck (after p m).placement p.turn → ⊥ }
    ensures other_king { (p : Parts) (m : Triple) → IsPosition p → IsLawful p → Legal p m
        → cell_at p.placement m.to ≢ man (other p.turn) King }
{}

/// A legal move takes the piece on its goal or, en passant, the pawn behind it; every other piece of the other side
/// stays, and no new one appears (Articles 3.1 and 3.7).
pub fn other_pieces_stay()
    ensures stay { (p : Parts) (m : Triple) → IsPosition p → IsLawful p → Legal p m → (u : ℕ) (k : Kind) → u < 64
        → cell_at p.placement u ≡ man (other p.turn) k → (IsTakenOn p m u → ⊥)
        → cell_at (after p m).placement u ≡ man (other p.turn) k }
    ensures taken { (p : Parts) (m : Triple) → IsPosition p → IsLawful p → Legal p m → (u : ℕ) (k : Kind) → u < 64
        → IsTakenOn p m u → cell_at (after p m).placement u ≢ man (other p.turn) k }
    ensures none_comes { (p : Parts) (m : Triple) → IsPosition p → IsLawful p → Legal p m → (u : ℕ) (k : Kind)
        → u < 64 → cell_at (after p m).placement u ≡ man (other p.turn) k
        → cell_at p.placement u ≡ man (other p.turn) k }
{}

/// An ordinary move takes one piece to its goal, where a pawn may become another, and moves no other piece of its side
/// (Articles 3.1 and 3.7).
pub fn one_piece_goes()
    ensures { (p : Parts) (m : Triple) → IsPosition p → IsLawful p → IsMove m → Reaches p m → CarriesOne p m }
{}

/// Castling sets the king on the c or the g file and its rook on the d or the f file of their home rank, changes no
/// other piece, and leaves that side no right (Article 3.8.2; Guidelines II.3).
pub fn castling_goals()
    ensures goals { (p : Parts) (m : Triple) → IsPosition p → IsMove m → Castles p m → CastlesRightly p m }
    ensures no_right { (p : Parts) (m : Triple) (f : ℕ) → Castles p m
        → IsFalse (has_right (after p m).rights p.turn f) }
{}

/// A side that is mated is in check and has no legal move, and is not stalemated (Articles 1.4.1, 5.1.1 and 5.2.1).
pub fn mate_is_check_without_moves()
    ensures check { (p : Parts) → Mate p → InCheck p.placement p.turn }
    ensures no_move { (p : Parts) (m : Triple) → Mate p → Legal p m → ⊥ }
    ensures not_both { (p : Parts) → Mate p → Stale p → ⊥ }
{}

/// A legal move of a lawful position leaves a lawful position, if the counters have room.
pub fn after_is_a_position()
    ensures position { (p : Parts) (m : Triple) → IsPosition p → IsLawful p → Legal p m → p.half_moves < 65535
        → p.number < 65535 → IsPosition (after p m) }
    ensures lawful { (p : Parts) (m : Triple) → Legal p m → IsLawful (after p m) }
{}

/// A capture or a pawn move restarts the half-move counter and cannot be undone: it raises the position's progress,
/// which no legal move lowers (Articles 9.2 and 9.3).
pub fn moves_advance()
    ensures { (p : Parts) (m : Triple) → IsPosition p → IsLawful p → Legal p m → Advances p m }
{}

/// No move is both an ordinary one and castling.
pub fn one_way_to_go()
    ensures { (p : Parts) (m : Triple) → IsPosition p → Reaches p m → Castles p m → ⊥ }
{}

/// Which moves are legal does not depend on the counters.
pub fn counters_do_not_matter()
    ensures { (p : Parts) (m : Triple) (half_moves number : ℕ)
        → Legal (with_counters p half_moves number) m ↔ Legal p m }
{}

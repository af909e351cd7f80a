//! The fields of the two counters.

ghost use Rattle.std.specs.Prelude.{◌≡◌, ◌≤◌, MatchOption, ℕ, decimal};
ghost use Rattle.c960_board.specs.Fen.Counters.{AreCounterFields};

use itoa::Buffer;

/// The number that the text writes in decimal, without a leading zero.
fn read_number(text: &[u8]) -> Option<u16>
    ensures { MatchOption result ((n : ℕ) → n ≤ 65535 → text.now ≡ decimal n → ⊥) (λ n. text.now ≡ decimal n) }
{
    let Ok(digits) = str::from_utf8(text) else {
        return None;
    };
    let Ok(number) = digits.parse::<u16>() else {
        return None;
    };
    let mut buffer = Buffer::new();
    if buffer.format(number).as_bytes() == text {
        Some(number)
    } else {
        None
    }
}

/// The half-move counter and the move number.
pub(crate) fn read_counters(half_moves: &[u8], number: &[u8]) -> Option<(u16, u16)>
    ensures { MatchOption result
        ((h n : ℕ) → AreCounterFields half_moves.now number.now h n → ⊥)
        (λ r. AreCounterFields half_moves.now number.now r.0 r.1) }
{
    let half_moves = read_number(half_moves)?;
    let number = read_number(number)?;
    if number == 0 {
        return None;
    }
    Some((half_moves, number))
}

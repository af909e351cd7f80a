//! The six fields of a text.

ghost use Rattle.std.specs.Prelude.{◌≡◌, ◌++◌, ◌∷◌, ◌↔◌, IsTrue, MatchOption, List, ℕ};
ghost use Rattle.c960_board.specs.Fen.Fields.{Six, IsSix, IsField, Lacks};
ghost use Rattle.c960_board.specs.Fen.Reading.{six_of, IsFront};

/// The six fields of a text, none of them parsed yet.
#[derive(Clone, Copy)]
pub(crate) struct Fields<'a> {
    pub(crate) placement: &'a [u8],
    pub(crate) turn: &'a [u8],
    pub(crate) rights: &'a [u8],
    pub(crate) target: &'a [u8],
    pub(crate) half_moves: &'a [u8],
    pub(crate) number: &'a [u8],
}

/// The text before the first byte `stop`, and the text after it.
pub(crate) fn cut(text: &[u8], stop: u8) -> Option<(&[u8], &[u8])>
    ensures { MatchOption result
        (Lacks stop text.now)
        (λ x. (text.now ≡ x.0.now ++ stop ∷ x.1.now) × Lacks stop x.0.now) }
{
    for (place, byte) in text.iter().enumerate() {
        if *byte == stop {
            return Some((&text[..place], &text[place + 1..]));
        }
    }
    None
}

/// Whether the text is not empty and has no space in it.
fn is_field(text: &[u8]) -> bool
    ensures { IsTrue result ↔ IsField text.now }
{
    match cut(text, b' ') {
        Some(_) => false,
        None => !text.is_empty(),
    }
}

/// The first field, and the text after its space.
fn front(text: &[u8]) -> Option<(&[u8], &[u8])>
    ensures { MatchOption result ((a x : List ℕ) → IsFront text.now a x → ⊥) (λ x. IsFront text.now x.0.now x.1.now) }
{
    let (field, rest) = cut(text, b' ')?;
    if field.is_empty() {
        return None;
    }
    Some((field, rest))
}

/// The fields of a text of six, separated by single spaces.
pub(crate) fn six_fields(text: &[u8]) -> Option<Fields<'_>>
    ensures { MatchOption result ((f : Six) → IsSix f text.now → ⊥) (λ f. IsSix (six_of f) text.now) }
{
    let (placement, rest) = front(text)?;
    let (turn, rest) = front(rest)?;
    let (rights, rest) = front(rest)?;
    let (target, rest) = front(rest)?;
    let (half_moves, number) = front(rest)?;
    if !is_field(number) {
        return None;
    }
    Some(Fields {
        placement,
        turn,
        rights,
        target,
        half_moves,
        number,
    })
}

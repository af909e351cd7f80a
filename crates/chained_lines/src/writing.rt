//! Writing lines into a text.

ghost use Rattle.std.specs.Prelude.{◌≡◌, ◌++◌, ◌∷◌, [], List, ℕ, IfOk, OnErr, OnOk};
ghost use Rattle.chained_lines.specs.Lines.{bytes_of, seal_after};

use crate::seal::{Seal, mark_of, seal_of};
use std::alloc::AllocError;

/// Appends the parts of a line.
fn extend(text: &mut Vec<u8>, seal: &Seal, mark: u8, body: &[u8]) -> Result<(), AllocError>
    ensures all { OnOk result (text.new.items ≡ text.old.items ++ seal.now ++ (mark ∷ body.now) ++ 10 ∷ []) }
    ensures some { (rest : List ℕ) × (text.new.items ≡ text.old.items ++ rest) }
{
    text.extend_from_slice(seal)?;
    text.push(mark)?;
    text.extend_from_slice(body)?;
    text.push(b'\n')?;
    Ok(())
}

/// Appends a line to a text, behind a line with the seal `before`. Returns its seal. A body with a line feed makes more than one line.
///
/// # Errors
///
/// There was no memory. The text is as it was.
pub fn put_line(
    text: &mut Vec<u8>,
    before: &[u8],
    is_first: bool,
    body: &[u8],
) -> Result<Seal, AllocError>
    ensures put { OnOk result (text.new.items
        ≡ text.old.items ++ bytes_of before.now (record { is_first = is_first; body = body.now })) }
    ensures seal { IfOk result (λ seal. seal ≡ seal_after before.now (record { is_first = is_first; body = body.now })) }
    ensures unchanged { OnErr result (text.new.items ≡ text.old.items) }
{
    let mark = mark_of(is_first);
    let seal = seal_of(before, mark, body);
    let was = text.len();
    if let Err(error) = extend(text, &seal, mark, body) {
        text.truncate(was);
        return Err(error);
    }
    Ok(seal)
}

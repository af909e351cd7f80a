//! An answerer for the tests of the line engine.

use relay960_engines::Answerer;
use std::alloc::{AllocError, Global};
use std::borrow::CowSlice;

/// It answers a line with the number of its bytes, counting at most 1,025, and has memory for a limited number of answers.
#[derive(Drop)]
pub struct Lengths {
    pub answers: u64,
}

impl Answerer for Lengths {
    ghost use Rattle.std.specs.Prelude.{◌≡◌, ◌∷◌, [], ◌++◌, length, min, decimal, IfSome};
    ghost use Rattle.std.proofs.Common.{refl, ap, ◌∙◌, arith};
    ghost use Rattle.std.proofs.lemmas.List.{length-take};
    ghost use Rattle.std.proofs.lemmas.Option.{IfSome_then};

    ghost gives = { λ s line text t. IfSome text (λ bytes. bytes ≡ decimal (min (length line) 1025) ++ 10 ∷ []) };

    ghost spelt = { λ s line t given. (decimal (min (length line) 1025) ++ 10 ∷ [], refl) };

    ghost cut = { λ s line text t given. IfSome_then text given
        (λ bytes same. same ∙ ap (λ n. decimal n ++ 10 ∷ []) (omega (arith, length-take 1025 line))) };

    fn answer(&mut self, alloc: Global, line: &[u8]) -> Result<CowSlice<'static, u8>, AllocError> {
        if self.answers == 0 {
            return Err(AllocError);
        }
        self.answers -= 1;
        let mut text = line.len().min(1025).to_string(alloc)?;
        text.push_str("\n")?;
        Ok(CowSlice::Owned(text.into_bytes()))
    }
}

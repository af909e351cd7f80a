//! Laws: turns of pushing, one after another, are together the same as one call of `push_all`.

ghost use Rattle.std.specs.Prelude.{List, Option, ℕ};
ghost use Rattle.relay_pushing.specs.declared.pushing.PushEnd.{PushEnd};
ghost use Rattle.relay_pushing.specs.declared.pushing.Turn.TheVariants.{Waits};
ghost use Rattle.relay_pushing.specs.Pushing.{Going, Pushed, Turned};

use crate::source::Source;

/// Before the first turn nothing was taken and nothing was sent.
#[tactic(auto, using(crate::proofs::lemmas::Turns::nothing_yet))]
pub fn nothing_yet<S: Source>()
    ensures { (s : S) (texts : Option (List (List ℕ))) → Going S.gives s s texts texts }
{}

/// A turn after others that went on goes on, too.
#[tactic(auto, using(crate::proofs::lemmas::Turns::going_on))]
pub fn going_on<S: Source>()
    ensures { (s m t : S) (old mid new : Option (List (List ℕ))) → Going S.gives s m old mid → Going S.gives m t mid new → Going S.gives s t old new }
{}

/// A turn that waits has gone on, and what it took last was `Nothing`.
#[tactic(auto, using(crate::proofs::lemmas::Turns::waiting_goes_on))]
pub fn waiting_goes_on<S: Source>()
    ensures { (s t : S) (old new : Option (List (List ℕ))) → Turned S.gives s t old new Waits → Going S.gives s t old new }
{}

/// Turns that went on, followed by one that ended pushing, have pushed what one call of `push_all` with that end pushes.
#[tactic(auto, using(crate::proofs::lemmas::Turns::pushed_on))]
pub fn pushed_on<S: Source>()
    ensures { (s m t : S) (old mid new : Option (List (List ℕ))) (end : PushEnd) → Going S.gives s m old mid → Pushed S.gives m t mid new end → Pushed S.gives s t old new end }
{}

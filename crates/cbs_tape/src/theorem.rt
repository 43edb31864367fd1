//! The theorems on what a tape has that was told many steps, and on what is handed out of it in pieces.

ghost use Rattle.std.specs.Prelude.{◌≡◌, ℕ, ◌++◌, List, true, false};
ghost use Rattle.cbs_steps.specs.declared.step.Step.{Step};
ghost use Rattle.cbs_units.specs.declared.count.CountJob.{CountJob};
ghost use Rattle.cbs_tape.specs.Tapes.{Taped, HearsEach, AddsFirst, Joins};

/// States what a tape has after it was told many steps, one after another. The function does nothing. Its contract is the
/// theorem, for every list of steps.
///
/// `whole`: a tape that is whole has each of them, in order, after the steps that it had.
///
/// `first`: a tape that lost a step has the first ones of them, however many, and no other.
///
/// `lost`: a tape that had lost a step before has none of them.
pub fn all_fronts()
    ensures whole { (xs : List (Step CountJob)) (old new : Taped) → HearsEach xs old new
        → new.whole ≡ true → new.steps ≡ old.steps ++ xs }
    ensures first { (xs : List (Step CountJob)) (old new : Taped) → HearsEach xs old new
        → AddsFirst xs old new }
    ensures lost { (xs : List (Step CountJob)) (old new : Taped) → HearsEach xs old new
        → old.whole ≡ false → new.steps ≡ old.steps }
{}

/// States what pieces of a tape tell. The function does nothing. Its contract is the theorem: the bytes of one piece, and
/// after them those of the next one, tell the steps of both, in order.
pub fn all_pieces()
    ensures { (a b : List ℕ) → Joins a b }
{}

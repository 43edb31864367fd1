//! The theorems on what is read of blocks that were written, and of some in which a byte was changed.

ghost use Rattle.std.specs.Prelude.{◌≡◌, ◌≢◌, ◌<◌, ◌^◌, [], ◌∷◌, ◌++◌, ℕ, List};
ghost use Rattle.cbs_sums.specs.Blocks.{block, blocks, changed_block, joined, register_of, tape_after};
ghost use Rattle.cbs_sums.specs.Sums.{after, initial, sum_of};

/// States what is read of blocks that were written, one after another, after these bytes of a file: just the bytes of the
/// tape that they have. The function does nothing. Its contract is the theorem, for every list of blocks.
pub fn all_blocks()
    ensures { (before : List ℕ) (contents : List (List ℕ))
        → tape_after before (blocks (after initial before) contents) ≡ joined contents }
{}

/// States that a byte which is changed changes the sum, wherever it stands, and whatever stands before and after it. The
/// function does nothing. Its contract is the theorem.
pub fn all_changes()
    ensures { (register : ℕ) (front : List ℕ) (byte other : ℕ) (back : List ℕ) → register < 2 ^ 32
        → byte < 256 → other < 256 → byte ≢ other
        → sum_of (after register (front ++ byte ∷ back)) ≢ sum_of (after register (front ++ other ∷ back)) }
{}

/// States what is read of a file in which a byte was changed. The function does nothing. Its contract is the theorem, for
/// every byte, and whatever stands after the block that is wrong by it.
///
/// `text`: if a byte before the first block was changed, the first block is wrong.
///
/// `tape`: if a byte of the tape was changed, what is read are the blocks before it, and then a byte that is no entry.
pub fn all_told()
    ensures text { (front back content rest : List ℕ) (byte other : ℕ) → byte < 256 → other < 256 → byte ≢ other
        → tape_after (front ++ other ∷ back) (block (after initial (front ++ byte ∷ back)) content ++ rest)
        ≡ 8 ∷ [] }
    ensures tape { (before : List ℕ) (contents : List (List ℕ)) (front back rest : List ℕ) (byte other : ℕ)
        → byte < 256 → other < 256 → byte ≢ other
        → tape_after before (blocks (after initial before) contents
        ++ (changed_block (register_of (after initial before) contents)
        (front ++ byte ∷ back) (front ++ other ∷ back) ++ rest)) ≡ joined contents ++ 8 ∷ [] }
{}

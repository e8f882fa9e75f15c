//! What the splits are. The function does nothing; its clause is the law.
ghost use Rattle.std.specs.Prelude.{ℕ};
ghost use Rattle.split_tables.specs.EachOnce.{ListsEachChoice};

/// The splits of `n` places have each choice of `k` of them once, in lexicographic order, beside it the other places.
pub fn splits()
    ensures { (n k : ℕ) → ListsEachChoice n k }
{}

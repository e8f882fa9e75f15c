//! What the makings give. The functions do nothing; their clauses say it.
ghost use Rattle.conic_points.specs.Laws.{MadeBracket, MadeConic, MadeIsFormed};
ghost use Rattle.conic_points.specs.Sizes.{MadeDoubles};

/// What is made is the bracket of the values, and the six-point polynomial of them, which is of rank 3 and has twice their
/// sizes.
pub fn makings()
    ensures bracket { MadeBracket }
    ensures conic { MadeConic }
    ensures formed { MadeIsFormed }
    ensures sizes { MadeDoubles }
{}

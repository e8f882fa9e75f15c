//! What the join of an object with fresh points tells of the object. The functions do nothing; their clauses say it.
ghost use Rattle.degeneracy_report.specs.ZeroLaws.{TermsAreJoin, ZeroWhereObject, ZeroAtPlacement};

/// The terms of the join come to the coordinate of the join at all columns. It is the zero polynomial exactly where all
/// coordinates of the object are, and it has the value 0 at a placement, wherever the fresh points are put, exactly
/// where all coordinates of the object have it there.
pub fn joins()
    ensures terms { TermsAreJoin }
    ensures zero { ZeroWhereObject }
    ensures placed { ZeroAtPlacement }
{}

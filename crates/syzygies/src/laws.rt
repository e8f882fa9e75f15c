//! What straightening needs of syzygies. Each function does nothing; its clauses are the laws.
ghost use Rattle.syzygies.specs.Places.{RewritesOnce, OthersAreSmaller, RewritesToSmaller, AdditionsAscend};

/// Where two rows of a tableau fall first, the syzygy there has their product once and otherwise products with a smaller
/// first row; with the other rows merged in, these are smaller tableaux with the same points.
pub fn places()
    ensures once { RewritesOnce }
    ensures others { OthersAreSmaller }
    ensures smaller { RewritesToSmaller }
{}

/// The terms that a use adds come in strictly ascending order of their keys.
pub fn additions()
    ensures { AdditionsAscend }
{}

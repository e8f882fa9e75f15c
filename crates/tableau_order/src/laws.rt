//! What straightening needs of the order of tableaux. Each function does nothing; its clauses are the laws.
ghost use Rattle.tableau_order.specs.Violations.{SplitsAtFall, SplitsAtViolation};
ghost use Rattle.tableau_order.specs.Merged.{KeepsOrder, SmallerPair, KeepsPoints};

/// Where a row falls first to the next, the points of both are those of a van der Waerden syzygy, at a column that is
/// not the first.
pub fn violations()
    ensures rows { SplitsAtFall }
    ensures tableaux { SplitsAtViolation }
{}

/// Rows that are merged into two row lists of one length keep their order: so a pair of rows whose first is smaller
/// makes a smaller tableau. Rows with the same points make tableaux with the same points.
pub fn merged()
    ensures order { KeepsOrder }
    ensures smaller { SmallerPair }
    ensures points { KeepsPoints }
{}

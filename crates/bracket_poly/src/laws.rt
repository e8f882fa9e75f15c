//! What holds of every key and every polynomial. The functions change nothing; their clauses say it.
ghost use Rattle.coordinate_model.specs.Sequences.{IsRank};
ghost use Rattle.std.specs.Prelude.{IsSorted};
ghost use Rattle.coordinate_model.specs.Key.{IsKey, row_cmp};
ghost use Rattle.bracket_poly.specs.Arena.{key_of};
ghost use Rattle.bracket_poly.specs.Laws.{TermAdds, TermsAdd, ProductAdds, UseAdds, MakesProduct, ProductHasDegree};

use crate::key::Key;
use bracket_terms::laws::{brackets, params};
use bracket_terms::{Bracket, Params};

/// Each key has 64 exponents and ascending rows of `D` points that strictly increase.
pub fn keys<const D: usize>(key: &Key<D>)
    requires { IsRank D }
    ensures { IsKey D 64 key.now }
{
    params(&key.params);
    let _ = key.tableau.rows();
}

/// So have parameters and rows that ascend.
pub fn parts<const D: usize>(exponents: &Params, rows: &[Bracket<D>])
    requires { IsSorted row_cmp rows.now }
    ensures { IsKey D 64 (key_of exponents.now rows.now) }
{
    params(exponents);
    brackets(rows);
}

/// What terms that are added one after another come to.
pub fn sums()
    ensures term { TermAdds }
    ensures terms { TermsAdd }
    ensures product { ProductAdds }
    ensures uses { UseAdds }
{}

/// What is made as a product.
pub fn products()
    ensures product { MakesProduct }
    ensures degree { ProductHasDegree }
{}

//! What holds of every bracket, product of parameters and use. The functions change nothing; their clauses say it.
ghost use Rattle.std.specs.Prelude.{◌≡◌, length};
ghost use Rattle.std.specs.List.{AllByRecursion};
ghost use Rattle.coordinate_model.specs.Key.{IsRow};
ghost use Rattle.bracket_terms.specs.Uses.{IsLogUse};
ghost use Rattle.bracket_terms.specs.LogUses.{use_of};

use crate::bracket::Bracket;
use crate::log_use::LogUse;
use crate::params::Params;

/// Each bracket of a list is a row of rank `D`.
pub fn brackets<const D: usize>(rows: &[Bracket<D>])
    ensures { AllByRecursion (IsRow D) rows.now }
{
    for row in rows {
        let _ = row.points();
    }
}

/// A product of parameters has 64 exponents.
pub fn params(params: &Params)
    ensures { length params.now ≡ 64 }
{
    let _ = params.exponent(0);
}

/// Each use in a log is well formed.
pub fn log_uses<const D: usize>(log_use: &LogUse<D>)
    ensures { IsLogUse D (use_of log_use.now) }
{}

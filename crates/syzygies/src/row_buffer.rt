//! Rows in their order, in a buffer that is used again.
ghost use Rattle.std.specs.Prelude.{◌≡◌, [], ◌∷◌, ◌++◌, OnOk, IsSorted};
ghost use Rattle.coordinate_model.specs.Key.{row_cmp};
ghost use Rattle.coordinate_model.specs.Words.{ordered, place};

use bracket_terms::Bracket;
use cay_base::NoMemory;

/// Makes the buffer hold ascending rows with two more, each at its place.
pub(crate) fn fill<const D: usize>(
    buffer: &mut Vec<Bracket<D>>,
    rows: &[Bracket<D>],
    low: &Bracket<D>,
    high: &Bracket<D>,
) -> Result<(), NoMemory>
    requires { IsSorted row_cmp rows.now }
    ensures { OnOk result (buffer.new.items ≡ ordered row_cmp (rows.now ++ low.now ∷ high.now ∷ [])) }
{
    buffer.clear();
    buffer.extend_from_slice(rows)?;
    put_row(buffer, high)?;
    put_row(buffer, low)
}

/// Puts the row before the first that is not smaller.
fn put_row<const D: usize>(rows: &mut Vec<Bracket<D>>, row: &Bracket<D>) -> Result<(), NoMemory>
    ensures { OnOk result (rows.new.items ≡ place row_cmp row.now rows.old.items) }
{
    let mut at = 0;
    while at < rows.len() && row.cmp(&rows[at]).is_gt() {
        at += 1;
    }
    rows.insert(at, *row)?;
    Ok(())
}

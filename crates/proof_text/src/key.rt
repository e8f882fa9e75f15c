//! Keys of bracket polynomials, as words of a line.
ghost use Rattle.std.specs.Prelude.{◌≡◌, ◌++◌, OnOk};
ghost use Rattle.std.specs.List.{AllByRecursion};
ghost use Rattle.coordinate_model.specs.Sequences.{IsRank};
ghost use Rattle.proof_text.specs.Keys.{key_words};
ghost use Rattle.proof_text.specs.Lines.{behind_spaces};
ghost use Rattle.proof_text.specs.Terms.{ArePoints};

use crate::term::{add_powers, add_rows};
use bracket_poly::Key;
use cay_base::NoMemory;
use step_types::Names;

/// Puts the words of a key behind the line, each behind a space: its parameters and rows, or `1` for the empty product.
pub fn add_key<const D: usize>(
    line: &mut Vec<u8>,
    names: &Names,
    key: &Key<D>,
) -> Result<(), NoMemory>
    requires rank { IsRank D }
    requires named { AllByRecursion (ArePoints names.now) key.now.rows }
    ensures { OnOk result (line.new.items ≡ line.old.items ++ behind_spaces (key_words names.now key.now)) }
{
    let before = line.len();
    add_powers(line, names, &key.params)?;
    add_rows(line, names, key.tableau.rows())?;
    if line.len() == before {
        line.extend_from_slice(b" 1")?;
    }
    Ok(())
}

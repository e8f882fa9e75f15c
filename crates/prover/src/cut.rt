//! Cutting the input in two.

ghost use Rattle.std.specs.Prelude.{◌≡◌, ℕ, List};
ghost use Rattle.prover.specs.Cuts.{IsSeparator, IsCut, behind_separator};

use proof_text::first_line;

/// The input before and from the first line on that is the separator. Where none is, all of it stands before.
pub fn cut<'a>(input: &'a [u8], separator: &[u8]) -> (&'a [u8], &'a [u8])
    requires { IsSeparator separator.now }
    ensures { IsCut separator.now input.now result.0.now result.1.now }
{
    let rest = from_separator(input, separator);
    (&input[..input.len() - rest.len()], rest)
}

/// What stands behind the separator, with which the rest begins if it is not empty.
pub fn behind_separator<'a>(rest: &'a [u8], separator: &[u8]) -> &'a [u8]
    ensures { result.now ≡ behind_separator separator.now rest.now }
{
    &rest[rest.len().min(separator.len() + 1)..]
}

/// The input from the first line on that is the separator.
fn from_separator<'a>(input: &'a [u8], separator: &[u8]) -> &'a [u8]
    requires { IsSeparator separator.now }
    ensures { (first : List ℕ) × IsCut separator.now input.now first result.now }
{
    let mut rest = input;
    while !rest.is_empty() {
        let (line, _, behind) = first_line(rest);
        if line == separator {
            return rest;
        }
        rest = behind;
    }
    rest
}

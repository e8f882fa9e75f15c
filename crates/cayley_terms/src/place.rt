//! The places of names in lists.

ghost use Rattle.std.specs.Prelude.{◌≡◌, ◌≤◌, length, position};
ghost use Rattle.construction_reader.specs.Words.{◌is◌};
ghost use Rattle.cayley_terms.specs.Named.{place_of};

use construction_reader::Name;

fn found(names: &[Name], name: &Name) -> Option<usize>
    ensures { result ≡ position (λ other. other is name.now) names.now }
{
    names.iter().position(|other| other.bytes() == name.bytes())
}

/// The place of the name in the list, or else the list's length.
pub fn place(names: &[Name], name: &Name) -> u8
    requires { length names.now ≤ 64 }
    ensures { result ≡ place_of name.now names.now }
{
    found(names, name).unwrap_or(names.len()) as u8
}

//! The parameters of a term with their exponents, one after another.
ghost use Rattle.std.specs.Prelude.{◌≡◌, ◌==◌, option_map};
ghost use Rattle.std.specs.Iterator.{YieldsFirstBy, item_count};
ghost use Rattle.std.specs.List.{position};
ghost use Rattle.proof_text.specs.Seen.{power_seen, powers_seen};
ghost use Rattle.proof_text.specs.Shapes.{checked_power, power_of, powers_of};

use crate::line_words::Words;
use crate::numbers::{is_number, is_run};
use crate::spelling::Power;
use crate::word::Word;

fn caret(bytes: &[u8]) -> Option<usize>
    ensures { result ≡ position (λ b. b == 94) bytes.now }
{
    bytes.iter().position(|byte| *byte == b'^')
}

/// The name and the digits, where they are such by their shape.
fn checked<'a>(name: &'a [u8], digits: &'a [u8]) -> Option<Power<'a>>
    ensures { option_map power_seen result ≡ checked_power name.now digits.now }
{
    if is_run(name) && is_number(digits) {
        Some(Power {
            name: Word::of(name),
            digits: Word::of(digits),
        })
    } else {
        None
    }
}

/// A parameter with its exponent.
#[tactic(auto, unfolding(crate::specs::Shapes::power_of))]
pub(crate) fn power<'a>(word: &Word<'a>) -> Option<Power<'a>>
    ensures { option_map power_seen result ≡ power_of word.now }
{
    let bytes = word.bytes();
    match caret(bytes) {
        Some(end) => checked(&bytes[..end], &bytes[end + 1..]),
        None => None,
    }
}

/// The parameters with which words begin.
#[derive(Drop)]
pub(crate) struct Powers<'a> {
    pub words: Words<'a>,
}

impl<'a> Powers<'a> {
    pub(crate) fn of(words: &Words<'a>) -> Powers<'a>
        ensures { powers_seen result ≡ (powers_of words.now).0 }
    {
        Powers {
            words: words.again(),
        }
    }
}

impl<'a> Iterator for Powers<'a> {
    type Item = Power<'a>;

    ghost next_gives = { YieldsFirstBy power_seen powers_seen };

    ghost remaining = { item_count powers_seen };

    fn next(&mut self) -> Option<Power<'a>> {
        if let Some(word) = self.words.next() {
            if let Some(power) = power(&word) {
                return Some(power);
            }
            self.words = self.words.front(0);
        }
        None
    }
}

/// The words behind the parameters with which they begin.
pub(crate) fn behind_powers<'a>(words: &Words<'a>) -> Words<'a>
    ensures { result ≡ (powers_of words.now).1 }
{
    let mut behind = words.again();
    let mut rest = words.again();
    while let Some(word) = rest.next() {
        match power(&word) {
            Some(_) => behind = rest.again(),
            None => break,
        }
    }
    behind
}

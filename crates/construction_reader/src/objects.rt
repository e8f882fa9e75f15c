//! Objects, from the tokens of a line.

ghost use Rattle.std.specs.Prelude.{◌≡◌};
ghost use Rattle.construction_reader.specs.Outcome.{Gives};
ghost use Rattle.construction_reader.specs.Said.{object};
ghost use Rattle.construction_reader.specs.Objects.{token_at, name_at, after_word, named_at, both_at, pair_of, pair_at, object_at};

use crate::fault::{Kind, LineError};
use crate::name::Name;
use crate::tokens::Token;
use crate::types::Arg;
use std::alloc::Global;

#[tactic(auto, unfolding(crate::specs::Objects::token_at))]
pub fn token<'t, 'a>(tokens: &'t [Token<'a>]) -> Result<(&'t Token<'a>, &'t [Token<'a>]), LineError>
    ensures { Gives (λ x. (x.0.now, x.1.now)) result (token_at tokens.now) }
{
    match tokens {
        [] => Err(LineError::Fault(Kind::Shape)),
        [token, rest @ ..] => Ok((token, rest)),
    }
}

#[tactic(auto, unfolding(crate::specs::Objects::name_at))]
pub fn name<'t, 'a>(
    alloc: Global,
    tokens: &'t [Token<'a>],
) -> Result<(Name, &'t [Token<'a>]), LineError>
    ensures { Gives (λ x. (x.0, x.1.now)) result (name_at tokens.now) }
{
    let (token, rest) = token(tokens)?;
    if !token.is_name() {
        return Err(LineError::Fault(Kind::Shape));
    }
    Ok((Name::new(alloc, token.bytes())?, rest))
}

#[tactic(auto, unfolding(crate::specs::Objects::after_word))]
pub fn after<'t, 'a>(word: &[u8], tokens: &'t [Token<'a>]) -> Result<&'t [Token<'a>], LineError>
    ensures { Gives (λ x. x.now) result (after_word word.now tokens.now) }
{
    let (token, rest) = token(tokens)?;
    if !token.is(word) {
        return Err(LineError::Fault(Kind::Shape));
    }
    Ok(rest)
}

/// The object at the front of the tokens, where `room` more parentheses may be open.
#[cycle(objects)]
#[tactic(auto, using(crate::proofs::ObjectSteps::object_steps))]
pub fn object<'t, 'a>(
    alloc: Global,
    room: u32,
    tokens: &'t [Token<'a>],
) -> Result<(Arg, &'t [Token<'a>]), LineError>
    ensures { Gives (λ x. (object x.0, x.1.now)) result (object_at room tokens.now) }
{
    match tokens {
        [first, inside @ ..] if room > 0 && first.is(b"(") => pair(alloc, room - 1, inside),
        _ => named(alloc, tokens),
    }
}

/// Two objects from the front of the tokens, and what follows them.
#[cycle(objects)]
#[tactic(auto, unfolding(crate::specs::Objects::both_at))]
pub fn both<'t, 'a>(
    alloc: Global,
    room: u32,
    tokens: &'t [Token<'a>],
) -> Result<(Arg, Arg, &'t [Token<'a>]), LineError>
    ensures { Gives (λ x. (object x.0, object x.1, x.2.now)) result (both_at (object_at room) tokens.now) }
{
    let (a, rest) = object(alloc, room, tokens)?;
    let (b, rest) = object(alloc, room, rest)?;
    Ok((a, b, rest))
}

/// The join or meet of two objects, as the word says.
fn pair_of(alloc: Global, word: &Token, a: Arg, b: Arg) -> Result<Arg, LineError>
    ensures { Gives object result (pair_of word.now (object a) (object b)) }
{
    if word.is(b"join") {
        Ok(Arg::Join(Box::new(alloc, a)?, Box::new(alloc, b)?))
    } else if word.is(b"meet") {
        Ok(Arg::Meet(Box::new(alloc, a)?, Box::new(alloc, b)?))
    } else {
        Err(LineError::Fault(Kind::Shape))
    }
}

/// A join or meet behind its opening parenthesis.
#[cycle(objects)]
#[tactic(auto, unfolding(crate::specs::Objects::pair_at))]
fn pair<'t, 'a>(
    alloc: Global,
    room: u32,
    tokens: &'t [Token<'a>],
) -> Result<(Arg, &'t [Token<'a>]), LineError>
    ensures { Gives (λ x. (object x.0, x.1.now)) result (pair_at (object_at room) tokens.now) }
{
    let (word, rest) = token(tokens)?;
    let (a, b, rest) = both(alloc, room, rest)?;
    let rest = after(b")", rest)?;
    Ok((pair_of(alloc, word, a, b)?, rest))
}

#[tactic(auto, unfolding(crate::specs::Objects::named_at))]
fn named<'t, 'a>(
    alloc: Global,
    tokens: &'t [Token<'a>],
) -> Result<(Arg, &'t [Token<'a>]), LineError>
    ensures { Gives (λ x. (object x.0, x.1.now)) result (named_at tokens.now) }
{
    let (name, rest) = name(alloc, tokens)?;
    Ok((Arg::Named(name), rest))
}

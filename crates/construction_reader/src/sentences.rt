//! Sentences, from the tokens of a line.

ghost use Rattle.std.specs.Prelude.{◌≡◌, IfOk};
ghost use Rattle.std.specs.List.{list_all};
ghost use Rattle.construction_reader.specs.Words.{is_name};
ghost use Rattle.construction_reader.specs.Outcome.{Gives};
ghost use Rattle.construction_reader.specs.Said.{object, objects, recipe, claim as said_claim, sentence};
ghost use Rattle.construction_reader.specs.Lines.{may_claim, has_keyword, is_deep};
ghost use Rattle.construction_reader.specs.Sentences.{ended, behind, objects_at, two_at, weights_at, on_at, pascal_at, recipe_at, definition_at, free_at, counted, claim_of, claim_at, begun_by, shaped, sentence_at};

use crate::fault::{Kind, LineError};
use crate::items::Items;
use crate::name::Name;
use crate::objects::{after, both, name, object, token};
use crate::tokens::Token;
use crate::types::{Arg, Body, Conclusion, Expr, ObjectKind};
use cay_base::NoMemory;
use std::alloc::Global;

/// How many parentheses may be open at once.
const ROOM: u32 = 32;

#[tactic(auto, unfolding(crate::specs::Sentences::ended))]
fn end(tokens: &[Token]) -> Result<(), LineError>
    ensures { Gives (λ x. x) result (ended tokens.now) }
{
    if tokens.is_empty() {
        Ok(())
    } else {
        Err(LineError::Fault(Kind::Shape))
    }
}

/// Adds at most `most` objects from the front of the tokens, and answers what follows them.
fn several<'t, 'a>(
    alloc: Global,
    most: u32,
    args: &mut Vec<Arg>,
    tokens: &'t [Token<'a>],
) -> Result<&'t [Token<'a>], LineError>
    ensures { Gives (λ x. (objects args.new.items, x.now)) result
        (behind (objects args.old.items) (objects_at most tokens.now)) }
{
    if most == 0 || tokens.is_empty() {
        return Ok(tokens);
    }
    let (arg, rest) = object(alloc, ROOM, tokens)?;
    args.push(arg)?;
    several(alloc, most - 1, args, rest)
}

#[tactic(auto, unfolding(crate::specs::Sentences::two_at))]
fn two(alloc: Global, tokens: &[Token]) -> Result<(Arg, Arg), LineError>
    ensures { Gives (λ x. (object x.0, object x.1)) result (two_at tokens.now) }
{
    let (a, b, rest) = both(alloc, ROOM, tokens)?;
    end(rest)?;
    Ok((a, b))
}

#[tactic(auto, unfolding(crate::specs::Sentences::weights_at))]
fn weights(alloc: Global, tokens: &[Token]) -> Result<(Name, Name), LineError>
    ensures { Gives (λ x. x) result (weights_at tokens.now) }
{
    let rest = after(b"with", tokens)?;
    let (s, rest) = name(alloc, rest)?;
    let (t, rest) = name(alloc, rest)?;
    end(rest)?;
    Ok((s, t))
}

#[tactic(auto, unfolding(crate::specs::Sentences::on_at))]
fn on(alloc: Global, tokens: &[Token]) -> Result<Expr, LineError>
    ensures { Gives recipe result (on_at tokens.now) }
{
    let (a, b, rest) = both(alloc, ROOM, tokens)?;
    let (s, t) = weights(alloc, rest)?;
    Ok(Expr::On { a, b, s, t })
}

#[tactic(auto, unfolding(crate::specs::Sentences::pascal_at))]
fn pascal(alloc: Global, tokens: &[Token]) -> Result<Expr, LineError>
    ensures { Gives recipe result (pascal_at tokens.now) }
{
    let mut five = Vec::new(alloc);
    let rest = several(alloc, 5, &mut five, tokens)?;
    let rest = after(b"through", rest)?;
    let (through, rest) = object(alloc, ROOM, rest)?;
    end(rest)?;
    Ok(Expr::Pascal {
        five: Items::of(five),
        through,
    })
}

#[tactic(auto, unfolding(crate::specs::Sentences::recipe_at))]
fn expr(alloc: Global, word: &Token, tokens: &[Token]) -> Result<Expr, LineError>
    ensures { Gives recipe result (recipe_at word.now tokens.now) }
{
    if word.is(b"join") {
        let (a, b) = two(alloc, tokens)?;
        Ok(Expr::Join(a, b))
    } else if word.is(b"meet") {
        let (a, b) = two(alloc, tokens)?;
        Ok(Expr::Meet(a, b))
    } else if word.is(b"on") {
        on(alloc, tokens)
    } else if word.is(b"pascal") {
        pascal(alloc, tokens)
    } else {
        Err(LineError::Fault(Kind::Shape))
    }
}

#[tactic(auto, unfolding(crate::specs::Sentences::definition_at))]
fn definition(alloc: Global, kind: ObjectKind, tokens: &[Token]) -> Result<Body, LineError>
    ensures { Gives sentence result (definition_at kind tokens.now) }
{
    let (name, rest) = name(alloc, tokens)?;
    let rest = after(b"=", rest)?;
    let (word, rest) = token(rest)?;
    let expr = expr(alloc, word, rest)?;
    Ok(Body::Define { kind, name, expr })
}

fn counted(fits: bool, claim: Conclusion) -> Result<Conclusion, LineError>
    ensures { Gives said_claim result (counted fits (said_claim claim)) }
{
    if fits {
        Ok(claim)
    } else {
        Err(LineError::Fault(Kind::Shape))
    }
}

#[tactic(auto, unfolding(crate::specs::Sentences::claim_of))]
fn claim_of(word: &Token, args: Vec<Arg>) -> Result<Conclusion, LineError>
    ensures { Gives said_claim result (claim_of word.now (objects args.items)) }
{
    let count = args.len();
    let args = Items::of(args);
    if word.is(b"collinear") {
        counted(count == 3, Conclusion::Collinear { args })
    } else if word.is(b"concurrent") {
        counted(count == 3 || count == 4, Conclusion::Concurrent { args })
    } else if word.is(b"coplanar") {
        counted(count == 4, Conclusion::Coplanar { args })
    } else if word.is(b"meeting") {
        counted(count == 2, Conclusion::Meeting { args })
    } else if word.is(b"incident") {
        counted(count == 2, Conclusion::Incident { args })
    } else if word.is(b"conic") {
        counted(count == 6, Conclusion::Conic { args })
    } else {
        Err(LineError::Fault(Kind::Shape))
    }
}

#[tactic(auto, unfolding(crate::specs::Sentences::claim_at))]
fn conclusion(alloc: Global, tokens: &[Token]) -> Result<Body, LineError>
    ensures { Gives sentence result (claim_at tokens.now) }
{
    let (word, rest) = token(tokens)?;
    let mut args = Vec::new(alloc);
    let rest = several(alloc, 6, &mut args, rest)?;
    end(rest)?;
    let claim = claim_of(word, args)?;
    Ok(Body::Conclude(claim))
}

/// The names that these tokens are.
fn names(alloc: Global, tokens: &[Token]) -> Result<Vec<Name>, NoMemory>
    ensures { IfOk result (λ names. names.items ≡ tokens.now) }
{
    let mut names = Vec::new(alloc);
    for token in tokens {
        names.push(Name::new(alloc, token.bytes())?)?;
    }
    Ok(names)
}

fn are_names(tokens: &[Token]) -> bool
    ensures { result ≡ list_all is_name tokens.now }
{
    tokens.iter().all(|token| token.is_name())
}

#[tactic(auto, unfolding(crate::specs::Sentences::free_at))]
fn free(alloc: Global, tokens: &[Token]) -> Result<Body, LineError>
    ensures { Gives sentence result (free_at tokens.now) }
{
    if tokens.is_empty() || !are_names(tokens) {
        return Err(LineError::Fault(Kind::Shape));
    }
    Ok(Body::Free(Items::of(names(alloc, tokens)?)))
}

#[tactic(auto, unfolding(crate::specs::Sentences::begun_by))]
fn begun_by(alloc: Global, word: &Token, rest: &[Token]) -> Result<Body, LineError>
    ensures { Gives sentence result (begun_by word.now rest.now) }
{
    if word.is(b"free") {
        free(alloc, rest)
    } else if word.is(b"point") {
        definition(alloc, ObjectKind::Point, rest)
    } else if word.is(b"line") {
        definition(alloc, ObjectKind::Line, rest)
    } else if word.is(b"plane") {
        definition(alloc, ObjectKind::Plane, rest)
    } else {
        conclusion(alloc, rest)
    }
}

#[tactic(auto, unfolding(crate::specs::Sentences::shaped))]
fn shaped(alloc: Global, tokens: &[Token]) -> Result<Body, LineError>
    ensures { Gives sentence result (shaped tokens.now) }
{
    let (word, rest) = token(tokens)?;
    begun_by(alloc, word, rest)
}

#[tactic(auto, unfolding(crate::specs::Lines::may_claim))]
fn may_claim(tokens: &[Token]) -> bool
    ensures { result ≡ may_claim tokens.now }
{
    match tokens {
        [] => true,
        [word, ..] => {
            word.is(b"collinear")
                || word.is(b"concurrent")
                || word.is(b"coplanar")
                || word.is(b"meeting")
                || word.is(b"incident")
                || word.is(b"conic")
        }
    }
}

#[tactic(auto, unfolding(crate::specs::Lines::has_keyword))]
fn has_keyword(tokens: &[Token]) -> bool
    ensures { result ≡ has_keyword tokens.now }
{
    match tokens {
        [] => false,
        [first, rest @ ..] => {
            first.is(b"free")
                || first.is(b"point")
                || first.is(b"line")
                || first.is(b"plane")
                || (first.is(b"conclude") && may_claim(rest))
        }
    }
}

/// Whether more than 32 parentheses are open at once.
fn is_deep(tokens: &[Token]) -> bool
    ensures { result ≡ is_deep 0 tokens.now }
{
    let mut depth = 0;
    for token in tokens {
        if token.is(b"(") {
            if depth >= ROOM {
                return true;
            }
            depth += 1;
        } else if token.is(b")") {
            depth = depth.saturating_sub(1);
        }
    }
    false
}

/// The sentence of a line, or the first kind of fault that it has.
#[tactic(auto, unfolding(crate::specs::Sentences::sentence_at))]
pub fn sentence(alloc: Global, tokens: &[Token]) -> Result<Body, LineError>
    ensures { Gives sentence result (sentence_at tokens.now) }
{
    if !has_keyword(tokens) {
        return Err(LineError::Fault(Kind::Keyword));
    }
    if is_deep(tokens) {
        return Err(LineError::Fault(Kind::Deep));
    }
    shaped(alloc, tokens)
}

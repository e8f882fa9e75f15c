//! The canonical text of a construction.

ghost use Rattle.std.specs.Prelude.{◌≡◌, ◌++◌, ◌∷◌, [], true, ◌<◌, OnOk, IfOk};
ghost use Rattle.construction_reader.specs.Said.{object, objects, recipe, claim as said_claim, sentence, row};
ghost use Rattle.construction_reader.specs.Seen.{account};
ghost use Rattle.construction_reader.specs.Grammar.{object_tokens, objects_tokens, recipe_tokens, claim_word, claim_args, claim_tokens, kind_word, sentence_tokens};
ghost use Rattle.construction_reader.specs.Printed.{gap, spaced, line_text, printed, renumbered};
ghost use Rattle.construction_reader.specs.TextOf.{TextOf};

use crate::construction::Construction;
use crate::name::Name;
use crate::tokens::Token;
use crate::types::{Arg, Body, Conclusion, Expr, ObjectKind};
use cay_base::NoMemory;
use std::alloc::Global;

fn put<'a>(out: &mut Vec<Token<'a>>, word: &'a [u8]) -> Result<(), NoMemory>
    ensures { OnOk result (out.new.items ≡ out.old.items ++ word.now ∷ []) }
{
    out.push(Token::of(word))?;
    Ok(())
}

fn put_object<'a>(out: &mut Vec<Token<'a>>, arg: &'a Arg) -> Result<(), NoMemory>
    ensures { OnOk result (out.new.items ≡ out.old.items ++ object_tokens (object arg.now)) }
{
    match arg {
        Arg::Named(name) => put(out, name.bytes()),
        Arg::Join(a, b) => {
            put(out, b"(")?;
            put(out, b"join")?;
            put_object(out, a)?;
            put_object(out, b)?;
            put(out, b")")
        }
        Arg::Meet(a, b) => {
            put(out, b"(")?;
            put(out, b"meet")?;
            put_object(out, a)?;
            put_object(out, b)?;
            put(out, b")")
        }
    }
}

fn put_objects<'a>(out: &mut Vec<Token<'a>>, args: &'a [Arg]) -> Result<(), NoMemory>
    ensures { OnOk result (out.new.items ≡ out.old.items ++ objects_tokens (objects args.now)) }
{
    for arg in args {
        put_object(out, arg)?;
    }
    Ok(())
}

/// Puts a word, and two objects behind it.
fn put_two<'a>(
    out: &mut Vec<Token<'a>>,
    word: &'a [u8],
    a: &'a Arg,
    b: &'a Arg,
) -> Result<(), NoMemory>
    ensures { OnOk result (out.new.items
        ≡ out.old.items ++ word.now ∷ (object_tokens (object a.now) ++ object_tokens (object b.now))) }
{
    put(out, word)?;
    put_object(out, a)?;
    put_object(out, b)
}

fn put_expr<'a>(out: &mut Vec<Token<'a>>, expr: &'a Expr) -> Result<(), NoMemory>
    ensures { OnOk result (out.new.items ≡ out.old.items ++ recipe_tokens (recipe expr.now)) }
{
    match expr {
        Expr::Join(a, b) => put_two(out, b"join", a, b),
        Expr::Meet(a, b) => put_two(out, b"meet", a, b),
        Expr::On { a, b, s, t } => {
            put_two(out, b"on", a, b)?;
            put(out, b"with")?;
            put(out, s.bytes())?;
            put(out, t.bytes())
        }
        Expr::Pascal { five, through } => {
            put(out, b"pascal")?;
            put_objects(out, five.items())?;
            put(out, b"through")?;
            put_object(out, through)
        }
    }
}

fn put_names<'a>(out: &mut Vec<Token<'a>>, names: &'a [Name]) -> Result<(), NoMemory>
    ensures { OnOk result (out.new.items ≡ out.old.items ++ names.now) }
{
    for name in names {
        put(out, name.bytes())?;
    }
    Ok(())
}

fn claim_word(claim: &Conclusion) -> &'static [u8]
    ensures { result.now ≡ claim_word (said_claim claim.now) }
{
    match claim {
        Conclusion::Collinear { .. } => b"collinear",
        Conclusion::Concurrent { .. } => b"concurrent",
        Conclusion::Coplanar { .. } => b"coplanar",
        Conclusion::Meeting { .. } => b"meeting",
        Conclusion::Incident { .. } => b"incident",
        Conclusion::Conic { .. } => b"conic",
    }
}

fn claim_args(claim: &Conclusion) -> &[Arg]
    ensures { objects result.now ≡ claim_args (said_claim claim.now) }
{
    match claim {
        Conclusion::Collinear { args }
        | Conclusion::Concurrent { args }
        | Conclusion::Coplanar { args }
        | Conclusion::Meeting { args }
        | Conclusion::Incident { args }
        | Conclusion::Conic { args } => args.items(),
    }
}

fn put_claim<'a>(out: &mut Vec<Token<'a>>, claim: &'a Conclusion) -> Result<(), NoMemory>
    ensures { OnOk result (out.new.items ≡ out.old.items ++ claim_tokens (said_claim claim.now)) }
{
    put(out, claim_word(claim))?;
    put_objects(out, claim_args(claim))
}

fn kind_word(kind: ObjectKind) -> &'static [u8]
    ensures { result.now ≡ kind_word kind }
{
    match kind {
        ObjectKind::Point => b"point",
        ObjectKind::Line => b"line",
        ObjectKind::Plane => b"plane",
    }
}

fn put_body<'a>(out: &mut Vec<Token<'a>>, body: &'a Body) -> Result<(), NoMemory>
    ensures { OnOk result (out.new.items ≡ out.old.items ++ sentence_tokens (sentence body.now)) }
{
    match body {
        Body::Free(names) => {
            put(out, b"free")?;
            put_names(out, names.items())
        }
        Body::Define { kind, name, expr } => {
            put(out, kind_word(*kind))?;
            put(out, name.bytes())?;
            put(out, b"=")?;
            put_expr(out, expr)
        }
        Body::Conclude(claim) => {
            put(out, b"conclude")?;
            put_claim(out, claim)
        }
    }
}

fn put_line(out: &mut Vec<u8>, tokens: &[Token]) -> Result<(), NoMemory>
    ensures { OnOk result (out.new.items ≡ out.old.items ++ line_text tokens.now) }
{
    put_spaced(out, tokens)?;
    out.push(b'\n')?;
    Ok(())
}

fn put_gap(out: &mut Vec<u8>, glued: bool, token: &Token) -> Result<(), NoMemory>
    ensures { OnOk result (out.new.items ≡ out.old.items ++ gap glued token.now) }
{
    if !glued && !token.is(b")") {
        out.push(b' ')?;
    }
    Ok(())
}

fn put_spaced(out: &mut Vec<u8>, tokens: &[Token]) -> Result<(), NoMemory>
    ensures { OnOk result (out.new.items ≡ out.old.items ++ spaced true tokens.now) }
{
    let mut glued = true;
    for token in tokens {
        put_gap(out, glued, token)?;
        out.extend_from_slice(token.bytes())?;
        glued = token.is(b"(");
    }
    Ok(())
}

fn put_statement(alloc: Global, out: &mut Vec<u8>, body: &Body) -> Result<(), NoMemory>
    ensures { OnOk result (out.new.items ≡ out.old.items ++ line_text (sentence_tokens (sentence body.now))) }
{
    let mut tokens = Vec::new(alloc);
    put_body(&mut tokens, body)?;
    put_line(out, &tokens)
}

/// The canonical text.
pub fn print(alloc: Global, c: &Construction) -> Result<Vec<u8>, NoMemory>
    ensures text { IfOk result (λ text. text.items ≡ printed (account c.now)) }
    // That text gives the same rank and bodies, on the lines 3, 4, 5 and so on.
    ensures gives { IfOk result (λ text. TextOf text.items (renumbered (account c.now))) }
{
    let mut out = Vec::new(alloc);
    put_line(&mut out, &[Token::of(b"construction"), Token::of(b"1")])?;
    put_line(&mut out, &[Token::of(b"rank"), Token::of(&[b'0' + c.rank])])?;
    for statement in c.statements.items() {
        put_statement(alloc, &mut out, &statement.body)?;
    }
    Ok(out)
}

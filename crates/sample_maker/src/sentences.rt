//! The sentences of a sample.

ghost use Rattle.std.specs.Prelude.{◌≡◌, ◌<◌, IfOk};
ghost use Rattle.construction_reader.specs.Said.{Object, object, sentence};
ghost use Rattle.sample_maker.specs.Sample.{made, definition, free, conclusion};

use crate::choice::Choice;
use cay_base::NoMemory;
use construction_reader::{Arg, Body, Conclusion, Expr, Items, Name, ObjectKind};
use std::alloc::Global;

/// The name of the point that definition k makes, and A where k is 0.
pub fn made(alloc: Global, k: u32) -> Result<Name, NoMemory>
    ensures { IfOk result (λ name. name ≡ made k) }
{
    if k == 0 {
        return Name::new(alloc, b"A");
    }
    let text = format!(in alloc; "P{k}")?;
    Name::new(alloc, text.as_bytes())
}

/// The line through two points.
fn line(alloc: Global, a: Name, b: Name) -> Result<Arg, NoMemory>
    ensures { IfOk result (λ arg. object arg ≡ Object.Join (Object.Named a) (Object.Named b)) }
{
    let a = Box::new(alloc, Arg::Named(a))?;
    let b = Box::new(alloc, Arg::Named(b))?;
    Ok(Arg::Join(a, b))
}

/// The free points.
pub fn free(alloc: Global) -> Result<Body, NoMemory>
    ensures { IfOk result (λ body. sentence body ≡ free) }
{
    let mut names = Vec::new(alloc);
    for letter in b"ABCDEF" {
        names.push(Name::new(alloc, &[*letter])?)?;
    }
    Ok(Body::Free(Items::of(names)))
}

/// The definition of the point of this name, behind the one made before it.
pub fn definition(alloc: Global, name: Name, before: Name, choice: Choice) -> Result<Body, NoMemory>
    ensures { IfOk result (λ body. sentence body ≡ definition name before choice) }
{
    let a = line(alloc, before, Name::new(alloc, &[choice.u])?)?;
    let v = Name::new(alloc, &[choice.v])?;
    let b = line(alloc, v, Name::new(alloc, &[choice.w])?)?;
    Ok(Body::Define {
        kind: ObjectKind::Point,
        name,
        expr: Expr::Meet(a, b),
    })
}

/// The conclusion, on the point of this name.
pub fn conclusion(alloc: Global, name: Name) -> Result<Body, NoMemory>
    ensures { IfOk result (λ body. sentence body ≡ conclusion name) }
{
    let mut args = Vec::new(alloc);
    args.push(Arg::Named(name))?;
    args.push(Arg::Named(Name::new(alloc, b"A")?))?;
    args.push(Arg::Named(Name::new(alloc, b"B")?))?;
    let args = Items::of(args);
    Ok(Body::Conclude(Conclusion::Collinear { args }))
}

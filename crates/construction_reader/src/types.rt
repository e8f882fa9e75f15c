//! What a construction text says.

use crate::items::Items;
use crate::name::Name;

/// An object: one that was named, or a join or meet of two others.
#[derive(Debug, Drop)]
pub enum Arg {
    Named(Name),
    Join(Box<Arg>, Box<Arg>),
    Meet(Box<Arg>, Box<Arg>),
}

/// What a definition defines an object to be.
#[derive(Debug, Drop)]
pub enum Expr {
    Join(Arg, Arg),
    Meet(Arg, Arg),
    On { a: Arg, b: Arg, s: Name, t: Name },
    Pascal { five: Items<Arg>, through: Arg },
}

/// What is concluded of which objects.
#[derive(Debug, Drop)]
pub enum Conclusion {
    Collinear { args: Items<Arg> },
    Concurrent { args: Items<Arg> },
    Coplanar { args: Items<Arg> },
    Meeting { args: Items<Arg> },
    Incident { args: Items<Arg> },
    Conic { args: Items<Arg> },
}

/// What a definition says that its object is.
#[derive(Clone, Copy, Debug, PartialEq, Eq)]
pub enum ObjectKind {
    Point,
    Line,
    Plane,
}

/// What a statement says.
#[derive(Debug, Drop)]
pub enum Body {
    Free(Items<Name>),
    Define {
        kind: ObjectKind,
        name: Name,
        expr: Expr,
    },
    Conclude(Conclusion),
}

/// A statement, and the number of its line.
#[derive(Debug, Drop)]
pub struct Statement {
    pub line: u32,
    pub body: Body,
}

//! The step rules of one statement.

ghost use Rattle.std.specs.Prelude.{◌≡◌, ◌≤◌, ◌||◌, IfOk, IfSome};
ghost use Rattle.std.specs.List.{list_any, list_all};
ghost use Rattle.construction_reader.specs.Words.{◌is◌};
ghost use Rattle.construction_reader.specs.Said.{object, objects, recipe, claim as said_claim, sentence};
ghost use Rattle.construction_reader.specs.Grammar.{claim_args};
ghost use Rattle.step_types.specs.Known.{IsWithin};
ghost use Rattle.step_types.specs.Rules.{recipe_fits, claim_fits, fits_rank, is_object, is_taken, has_repeat, recipe_params, recipe_args, sentence_args, is_twice, knows, within};
ghost use Rattle.step_types.specs.Seen.{known};

use crate::fault::StepKind;
use crate::forms::kind_step;
use crate::measure::Measure;
use crate::progress::Progress;
use construction_reader::{Arg, Body, Conclusion, Expr, Name};

fn expr_fits(rank: u64, expr: &Expr) -> bool
    ensures { result ≡ recipe_fits rank (recipe expr.now) }
{
    match expr {
        Expr::Join(_, _) | Expr::Meet(_, _) | Expr::On { .. } => true,
        Expr::Pascal { .. } => rank == 3,
    }
}

fn claim_fits(rank: u64, claim: &Conclusion) -> bool
    ensures { result ≡ claim_fits rank (said_claim claim.now) }
{
    match claim {
        Conclusion::Collinear { .. } | Conclusion::Conic { .. } => rank == 3,
        Conclusion::Coplanar { .. } | Conclusion::Meeting { .. } => rank == 4,
        Conclusion::Concurrent { args } => args.items().len() as u64 == rank,
        Conclusion::Incident { .. } => true,
    }
}

/// Whether the rank has this statement.
pub fn fits_rank(rank: u64, body: &Body) -> bool
    ensures { result ≡ fits_rank rank (sentence body.now) }
{
    match body {
        Body::Free(_) => true,
        Body::Define { kind, expr, .. } => kind_step(*kind) < rank && expr_fits(rank, expr),
        Body::Conclude(claim) => claim_fits(rank, claim),
    }
}

pub fn stands_in(names: &[Name], name: &Name) -> bool
    ensures { result ≡ list_any (λ other. other is name.now) names.now }
{
    names.iter().any(|other| other.bytes() == name.bytes())
}

/// Whether one of the names stands again behind it.
fn has_repeat(names: &[Name]) -> bool
    ensures { result ≡ has_repeat names.now }
{
    match names {
        [] => false,
        [name, others @ ..] => stands_in(others, name) || has_repeat(others),
    }
}

fn claim_args(claim: &Conclusion) -> &[Arg]
    ensures { objects result.now ≡ claim_args (said_claim claim.now) }
{
    match claim {
        Conclusion::Collinear { args }
        | Conclusion::Concurrent { args }
        | Conclusion::Coplanar { args }
        | Conclusion::Meeting { args }
        | Conclusion::Incident { args }
        | Conclusion::Conic { args } => args.items(),
    }
}

/// The measure, where it is within the limits.
#[tactic(auto, unfolding(crate::specs::Rules::within))]
pub fn within(m: Option<Measure>) -> Result<Measure, StepKind>
    requires { IfSome m (λ m. m.step ≤ 4) }
    ensures value { result ≡ within m }
    ensures within { IfOk result IsWithin }
{
    let m = m.ok_or(StepKind::Step)?;
    if m.rows > 64 {
        Err(StepKind::Rows)
    } else if m.degree > 1000 {
        Err(StepKind::Degree)
    } else {
        Ok(m)
    }
}

impl Progress {
    fn is_object(&self, name: &Name) -> bool
        ensures { result ≡ is_object (known self.now) name.now }
    {
        self.made.get(name.bytes()).is_some()
    }

    fn is_taken(&self, name: &Name) -> bool
        ensures { result ≡ is_taken (known self.now) name.now }
    {
        self.is_object(name) || stands_in(&self.params, name)
    }

    fn is_one_taken(&self, names: &[Name]) -> bool
        ensures { result ≡ list_any (is_taken (known self.now)) names.now }
    {
        names.iter().any(|name| self.is_taken(name))
    }

    /// Whether the parameter stands for an object, or for the one that is made.
    fn names_object(&self, param: &Name, name: &Name) -> bool
        ensures { result ≡ (is_object (known self.now) param.now || (param.now is name.now)) }
    {
        self.is_object(param) || param.bytes() == name.bytes()
    }

    fn is_expr_twice(&self, name: &Name, expr: &Expr) -> bool
        ensures { result ≡ list_any (λ param. is_object (known self.now) param || (param is name.now))
            (recipe_params (recipe expr.now)) }
    {
        match expr {
            Expr::Join(_, _) | Expr::Meet(_, _) | Expr::Pascal { .. } => false,
            Expr::On { s, t, .. } => self.names_object(s, name) || self.names_object(t, name),
        }
    }

    /// Whether a name that is made here stands for something else, or a parameter for an object.
    pub fn is_twice(&self, body: &Body) -> bool
        ensures { result ≡ is_twice (known self.now) (sentence body.now) }
    {
        match body {
            Body::Free(names) => self.is_one_taken(names.items()) || has_repeat(names.items()),
            Body::Define { name, expr, .. } => self.is_taken(name)
                || self.is_expr_twice(name, expr),
            Body::Conclude(_) => false,
        }
    }

    fn knows(&self, arg: &Arg) -> bool
        ensures { result ≡ knows (known self.now) (object arg.now) }
    {
        match arg {
            Arg::Named(name) => self.is_object(name),
            Arg::Join(a, b) | Arg::Meet(a, b) => self.knows(a) && self.knows(b),
        }
    }

    #[tactic(auto, using(crate::proofs::Slices::take_rest))]
    fn knows_all(&self, args: &[Arg]) -> bool
        ensures { result ≡ list_all (knows (known self.now)) (objects args.now) }
    {
        match args {
            [] => true,
            [first, others @ ..] => self.knows(first) && self.knows_all(others),
        }
    }

    fn knows_expr(&self, expr: &Expr) -> bool
        ensures { result ≡ list_all (knows (known self.now)) (recipe_args (recipe expr.now)) }
    {
        match expr {
            Expr::Join(a, b) | Expr::Meet(a, b) | Expr::On { a, b, .. } => {
                self.knows(a) && self.knows(b)
            }
            Expr::Pascal { five, through } => self.knows(through) && self.knows_all(five.items()),
        }
    }

    /// Whether each name in the statement's objects is the name of an object.
    pub fn knows_args(&self, body: &Body) -> bool
        ensures { result ≡ list_all (knows (known self.now)) (sentence_args (sentence body.now)) }
    {
        match body {
            Body::Free(_) => true,
            Body::Define { expr, .. } => self.knows_expr(expr),
            Body::Conclude(claim) => self.knows_all(claim_args(claim)),
        }
    }
}

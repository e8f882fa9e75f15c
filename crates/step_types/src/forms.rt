//! The measures of objects, expressions and conclusions.

ghost use Rattle.std.specs.Prelude.{◌≡◌, ◌+◌, ◌*◌, ◌^◌, ◌<◌, ◌≤◌, IfSome, length};
ghost use Rattle.std.specs.List.{AllByRecursion};
ghost use Rattle.construction_reader.specs.Said.{object, objects, recipe, claim as said_claim, sentence};
ghost use Rattle.construction_reader.specs.Grammar.{nesting, IsObject, IsRecipe, IsClaim, IsSentence};
ghost use Rattle.step_types.specs.Measures.{weight, kind_step};
ghost use Rattle.step_types.specs.Forms.{measure_of, measure_at, pascal_measure, recipe_measure, total, point_and_hyperplane, claim_measure, sentence_measure};

use crate::measure::{
    Measure, both, conic, join, meet, mixed, none_of, of_step, pascal, with_rows,
};
use crate::table::Table;
use construction_reader::{Arg, Body, Conclusion, Expr, ObjectKind};

pub fn kind_step(kind: ObjectKind) -> u64
    ensures { result ≡ kind_step kind }
{
    match kind {
        ObjectKind::Point => 1,
        ObjectKind::Line => 2,
        ObjectKind::Plane => 3,
    }
}

impl Table {
    #[tactic(auto, using(crate::proofs::Sizes::doubled, crate::proofs::Sizes::bounded), unfolding(crate::specs::Forms::measure_of))]
    fn measure(&self, rank: u64, arg: &Arg) -> Option<Measure>
        requires { nesting (object arg.now) ≤ 32 }
        ensures value { result ≡ measure_of rank self.now (object arg.now) }
        ensures small { IfSome result (λ m. weight m ≤ 1069 * 2 ^ nesting (object arg.now)) }
    {
        match arg {
            Arg::Named(name) => self.get(name.bytes()),
            Arg::Join(a, b) => {
                let first = self.measure(rank, a)?;
                let second = self.measure(rank, b)?;
                join(rank, first, second)
            }
            Arg::Meet(a, b) => {
                let first = self.measure(rank, a)?;
                let second = self.measure(rank, b)?;
                meet(rank, first, second)
            }
        }
    }

    #[tactic(auto, using(crate::proofs::Sizes::bounded), unfolding(crate::specs::Forms::measure_at))]
    fn measure_at(&self, rank: u64, step: u64, arg: &Arg) -> Option<Measure>
        requires { nesting (object arg.now) ≤ 32 }
        ensures value { result ≡ measure_at rank self.now step (object arg.now) }
        ensures small { IfSome result (λ m. weight m ≤ 2 ^ 44) }
    {
        let m = self.measure(rank, arg)?;
        of_step(step, m)
    }

    #[tactic(auto, unfolding(crate::specs::Forms::pascal_measure))]
    fn pascal(&self, rank: u64, five: &[Arg], through: &Arg) -> Option<Measure>
        requires five { AllByRecursion IsObject (objects five.now) }
        requires through { nesting (object through.now) ≤ 32 }
        ensures value { result ≡ pascal_measure rank self.now (objects five.now) (object through.now) }
    {
        match five {
            [a, b, c, d, e] => {
                let a = self.measure_at(rank, 1, a)?;
                let b = self.measure_at(rank, 1, b)?;
                let c = self.measure_at(rank, 1, c)?;
                let d = self.measure_at(rank, 1, d)?;
                let e = self.measure_at(rank, 1, e)?;
                let q = self.measure_at(rank, 1, through)?;
                pascal(rank, a, b, c, d, e, q)
            }
            _ => None,
        }
    }

    #[tactic(auto, using(crate::proofs::Sizes::bounded), unfolding(crate::specs::Forms::recipe_measure, crate::specs::Forms::measure_of))]
    fn expr_measure(&self, rank: u64, expr: &Expr) -> Option<Measure>
        requires { IsRecipe (recipe expr.now) }
        ensures { result ≡ recipe_measure rank self.now (recipe expr.now) }
    {
        match expr {
            Expr::Join(a, b) => {
                let first = self.measure(rank, a)?;
                let second = self.measure(rank, b)?;
                join(rank, first, second)
            }
            Expr::Meet(a, b) => {
                let first = self.measure(rank, a)?;
                let second = self.measure(rank, b)?;
                meet(rank, first, second)
            }
            Expr::On { a, b, .. } => {
                let first = self.measure(rank, a)?;
                let second = self.measure(rank, b)?;
                mixed(first, second)
            }
            Expr::Pascal { five, through } => self.pascal(rank, five.items(), through),
        }
    }

    #[tactic(auto, using(crate::proofs::Slices::take_rest), unfolding(crate::specs::Forms::total))]
    fn total(&self, rank: u64, step: u64, args: &[Arg]) -> Option<Measure>
        requires few { length args.now ≤ 6 }
        requires each { AllByRecursion IsObject (objects args.now) }
        requires low { step ≤ 4 }
        ensures value { result ≡ total rank self.now step (objects args.now) }
        ensures small { IfSome result (λ m. weight m ≤ 2 ^ 44 * (length args.now + 1)) }
    {
        match args {
            [] => Some(none_of(step)),
            [first, rest @ ..] => {
                let first = self.measure_at(rank, step, first)?;
                let others = self.total(rank, step, rest)?;
                Some(both(first, others))
            }
        }
    }

    #[tactic(auto, unfolding(crate::specs::Forms::point_and_hyperplane))]
    fn point_and_hyperplane(&self, rank: u64, args: &[Arg]) -> Option<Measure>
        requires few { length args.now ≤ 6 }
        requires each { AllByRecursion IsObject (objects args.now) }
        requires rank { (0 < rank) × (rank ≤ 4) }
        ensures value { result ≡ point_and_hyperplane rank self.now (objects args.now) }
        ensures small { IfSome result (λ m. weight m ≤ 2 ^ 48) }
    {
        match args {
            [] => None,
            [point, others @ ..] => {
                let first = self.measure_at(rank, 1, point)?;
                let second = self.total(rank, rank - 1, others)?;
                Some(both(first, second))
            }
        }
    }

    #[tactic(auto, unfolding(crate::specs::Forms::claim_measure))]
    fn claim_measure(&self, rank: u64, claim: &Conclusion) -> Option<Measure>
        requires claim { IsClaim (said_claim claim.now) }
        requires rank { (0 < rank) × (rank ≤ 4) }
        ensures value { result ≡ claim_measure rank self.now (said_claim claim.now) }
        ensures low { IfSome result (λ m. m.step ≤ 4) }
    {
        match claim {
            Conclusion::Collinear { args } => {
                let sum = self.total(rank, 1, args.items())?;
                Some(with_rows(3, 1, sum))
            }
            Conclusion::Concurrent { args } => {
                let count = args.items().len();
                let sum = self.total(rank, rank - 1, args.items())?;
                Some(with_rows(0, (count - 1) as u64, sum))
            }
            Conclusion::Coplanar { args } => {
                let sum = self.total(rank, 1, args.items())?;
                Some(with_rows(4, 1, sum))
            }
            Conclusion::Meeting { args } => {
                let sum = self.total(rank, 2, args.items())?;
                Some(with_rows(4, 1, sum))
            }
            Conclusion::Incident { args } => {
                let sum = self.point_and_hyperplane(rank, args.items())?;
                Some(with_rows(rank, 1, sum))
            }
            Conclusion::Conic { args } => {
                let sum = self.total(rank, 1, args.items())?;
                Some(conic(sum))
            }
        }
    }

    /// The measure of what a statement makes or concludes, where its steps are as required.
    #[tactic(auto, unfolding(crate::specs::Forms::sentence_measure))]
    pub fn body_measure(&self, rank: u64, body: &Body) -> Option<Measure>
        requires body { IsSentence (sentence body.now) }
        requires rank { (0 < rank) × (rank ≤ 4) }
        ensures value { result ≡ sentence_measure rank self.now (sentence body.now) }
        ensures low { IfSome result (λ m. m.step ≤ 4) }
    {
        match body {
            Body::Free(_) => Some(none_of(1)),
            Body::Define { kind, expr, .. } => {
                let m = self.expr_measure(rank, expr)?;
                of_step(kind_step(*kind), m)
            }
            Body::Conclude(claim) => self.claim_measure(rank, claim),
        }
    }
}

//! The straight list so far, and what statements add to it.

ghost use Rattle.std.specs.Prelude.{◌≡◌, ◌≤◌, map, fold, length, IfOk, OnOk, None};
ghost use Rattle.construction_reader.specs.Said.{object, objects, recipe, claim as said_claim, sentence, row};
ghost use Rattle.construction_reader.specs.Grammar.{IsRecipe, IsClaim, IsSentence};
ghost use Rattle.cayley_terms.specs.Crossings.{cut_lowered, crossing_lowered};
ghost use Rattle.cayley_terms.specs.Pairs.{pair_instr, objects_from_left, objects_conic};
ghost use Rattle.cayley_terms.specs.Room.{Fits};
ghost use Rattle.cayley_terms.specs.Straight.{nothing, pushed, object_lowered, objects_lowered, pascal_lowered};
ghost use Rattle.cayley_terms.specs.Straight.{recipe_lowered, from_left_lowered, conic_lowered, claim_lowered};
ghost use Rattle.cayley_terms.specs.Straight.{point_lowered, defined_lowered, row_lowered};

use crate::instr::Instr;
use crate::numbers::Numbers;
use crate::pair::Pair;
use crate::place::place;
use cay_base::NoMemory;
use construction_reader::{Arg, Body, Conclusion, Expr, Name, Statement};
use std::alloc::Global;
use std::marker::Model;

/// What has been lowered up to a place of a construction.
#[derive(Drop)]
pub struct Lowering {
    pub instrs: Vec<Instr>,
    /// The line of the statement of each instruction.
    pub lines: Vec<u32>,
    /// For an instruction that ends a definition, the definition's number.
    pub defined: Vec<Option<u32>>,
    numbers: Numbers,
    points: u8,
    definitions: u32,
}

impl Model for Lowering {
    ghost use Rattle.cayley_terms.specs.Straight.{Lowered};

    ghost Value = { Lowered };

    ghost view = { λ l. record {
      instrs = l.instrs.items;
      lines = l.lines.items;
      defined = l.defined.items;
      numbers = l.numbers;
      points = l.points;
      definitions = l.definitions;
    } };
}

impl Lowering {
    pub fn new(alloc: Global) -> Self
        ensures { result ≡ nothing }
    {
        Lowering {
            instrs: Vec::new(alloc),
            lines: Vec::new(alloc),
            defined: Vec::new(alloc),
            numbers: Numbers::new(alloc),
            points: 0,
            definitions: 0,
        }
    }

    /// Adds an instruction of a statement on this line, which may end this definition, and answers its number.
    fn push(&mut self, line: u32, ends: Option<u32>, instr: Instr) -> Result<u32, NoMemory>
        requires { Fits (pushed line ends instr self.old).0 }
        ensures { IfOk result (λ number. (self.new, number) ≡ pushed line ends instr self.old) }
    {
        let number = self.instrs.len() as u32;
        self.instrs.push(instr)?;
        self.lines.push(line)?;
        self.defined.push(ends)?;
        Ok(number)
    }

    /// Adds the joins and meets of an object, and answers the number of the instruction that makes it.
    fn object(&mut self, line: u32, arg: &Arg) -> Result<u32, NoMemory>
        requires { Fits (object_lowered line (object arg.now) self.old).0 }
        ensures { IfOk result (λ number. (self.new, number) ≡ object_lowered line (object arg.now) self.old) }
    {
        match arg {
            Arg::Named(name) => Ok(self.numbers.get(name.bytes())),
            Arg::Join(a, b) => {
                let first = self.object(line, a)?;
                let second = self.object(line, b)?;
                self.push(line, None, Instr::Join(first, second))
            }
            Arg::Meet(a, b) => {
                let first = self.object(line, a)?;
                let second = self.object(line, b)?;
                self.push(line, None, Instr::Meet(first, second))
            }
        }
    }

    fn objects(&mut self, alloc: Global, line: u32, args: &[Arg]) -> Result<Vec<u32>, NoMemory>
        requires { Fits (objects_lowered line (objects args.now) self.old).0 }
        ensures { IfOk result (λ made. (self.new, made.items) ≡ objects_lowered line (objects args.now) self.old) }
    {
        let mut numbers = Vec::new(alloc);
        for arg in args {
            let number = self.object(line, arg)?;
            numbers.push(number)?;
        }
        Ok(numbers)
    }

    /// Adds the line through a and b, and where the line l meets it.
    fn cut(&mut self, line: u32, l: u32, a: u32, b: u32) -> Result<u32, NoMemory>
        requires { Fits (cut_lowered line l a b self.old).0 }
        ensures { IfOk result (λ number. (self.new, number) ≡ cut_lowered line l a b self.old) }
    {
        let other = self.push(line, None, Instr::Join(a, b))?;
        self.push(line, None, Instr::Meet(l, other))
    }

    /// Adds the line through a and b, the line through c and d, and where they meet.
    fn crossing(&mut self, line: u32, a: u32, b: u32, c: u32, d: u32) -> Result<u32, NoMemory>
        requires { Fits (crossing_lowered line a b c d self.old).0 }
        ensures { IfOk result (λ number. (self.new, number) ≡ crossing_lowered line a b c d self.old) }
    {
        let first = self.push(line, None, Instr::Join(a, b))?;
        self.cut(line, first, c, d)
    }

    /// Adds the joins and meets of five points and one more on the line, and answers the last of them, which makes the
    /// point.
    fn pascal(&mut self, line: u32, five: &[u32], q: u32) -> Result<Instr, NoMemory>
        requires five { length five.now ≡ 5 }
        requires room { Fits (pascal_lowered line five.now q self.old).0 }
        ensures { IfOk result (λ instr. (self.new, instr) ≡ pascal_lowered line five.now q self.old) }
    {
        let (a, b, c, d, e) = (five[0], five[1], five[2], five[3], five[4]);
        let l = self.push(line, None, Instr::Join(a, q))?;
        let x = self.crossing(line, a, b, d, e)?;
        let y = self.cut(line, l, c, d)?;
        let z = self.crossing(line, b, c, x, y)?;
        let side = self.push(line, None, Instr::Join(e, z))?;
        Ok(Instr::Meet(l, side))
    }

    /// Adds the arguments of an expression, where the parameters have these names, and answers the instruction that
    /// makes it of them.
    fn recipe(
        &mut self,
        alloc: Global,
        params: &[Name],
        line: u32,
        expr: &Expr,
    ) -> Result<Instr, NoMemory>
        requires params { length params.now ≤ 64 }
        requires formed { IsRecipe (recipe expr.now) }
        requires room { Fits (recipe_lowered params.now line (recipe expr.now) self.old).0 }
        ensures { IfOk result (λ instr. (self.new, instr) ≡ recipe_lowered params.now line (recipe expr.now) self.old) }
    {
        match expr {
            Expr::Join(a, b) => {
                let first = self.object(line, a)?;
                let second = self.object(line, b)?;
                Ok(Instr::Join(first, second))
            }
            Expr::Meet(a, b) => {
                let first = self.object(line, a)?;
                let second = self.object(line, b)?;
                Ok(Instr::Meet(first, second))
            }
            Expr::On { a, b, s, t } => {
                let a = self.object(line, a)?;
                let b = self.object(line, b)?;
                let s = place(params, s);
                let t = place(params, t);
                Ok(Instr::On { a, b, s, t })
            }
            Expr::Pascal { five, through } => {
                let five = self.objects(alloc, line, five.items())?;
                let q = self.object(line, through)?;
                self.pascal(line, &five, q)
            }
        }
    }

    /// Adds what the joins or meets from the left make.
    fn from_left(&mut self, line: u32, pair: Pair, numbers: &[u32]) -> Result<(), NoMemory>
        requires { Fits (from_left_lowered (pair_instr pair) line numbers.now self.old).0 }
        ensures { OnOk result (self.new ≡ (from_left_lowered (pair_instr pair) line numbers.now self.old).0) }
    {
        if let [first, others @ ..] = numbers {
            let mut made = *first;
            for other in others {
                made = self.push(line, None, pair.of(made, *other))?;
            }
        }
        Ok(())
    }

    /// Adds objects, and what the joins or meets from the left make of them.
    fn chain(&mut self, alloc: Global, line: u32, pair: Pair, args: &[Arg]) -> Result<(), NoMemory>
        requires { Fits (objects_from_left pair line (objects args.now) self.old) }
        ensures { OnOk result (self.new ≡ objects_from_left pair line (objects args.now) self.old) }
    {
        let numbers = self.objects(alloc, line, args)?;
        self.from_left(line, pair, &numbers)
    }

    /// Adds the six-point polynomial of six points.
    fn six_points(&mut self, line: u32, six: &[u32]) -> Result<(), NoMemory>
        requires six { length six.now ≡ 6 }
        requires room { Fits (conic_lowered line six.now self.old).0 }
        ensures { OnOk result (self.new ≡ (conic_lowered line six.now self.old).0) }
    {
        let (p1, p2, p3, p4, p5, p6) = (six[0], six[1], six[2], six[3], six[4], six[5]);
        let instr = Instr::Conic {
            p1,
            p2,
            p3,
            p4,
            p5,
            p6,
        };
        self.push(line, None, instr)?;
        Ok(())
    }

    /// Adds six objects, and the six-point polynomial of them.
    fn conic(&mut self, alloc: Global, line: u32, args: &[Arg]) -> Result<(), NoMemory>
        requires six { length (objects args.now) ≡ 6 }
        requires room { Fits (objects_conic line (objects args.now) self.old) }
        ensures { OnOk result (self.new ≡ objects_conic line (objects args.now) self.old) }
    {
        let six = self.objects(alloc, line, args)?;
        self.six_points(line, &six)
    }

    #[tactic(auto, unfolding(crate::specs::Straight::claim_lowered))]
    fn claim(&mut self, alloc: Global, line: u32, claim: &Conclusion) -> Result<(), NoMemory>
        requires formed { IsClaim (said_claim claim.now) }
        requires room { Fits (claim_lowered line (said_claim claim.now) self.old).0 }
        ensures { OnOk result (self.new ≡ (claim_lowered line (said_claim claim.now) self.old).0) }
    {
        match claim {
            Conclusion::Collinear { args }
            | Conclusion::Coplanar { args }
            | Conclusion::Meeting { args }
            | Conclusion::Incident { args } => self.chain(alloc, line, Pair::Join, args.items()),
            Conclusion::Concurrent { args } => self.chain(alloc, line, Pair::Meet, args.items()),
            Conclusion::Conic { args } => self.conic(alloc, line, args.items()),
        }
    }

    /// Adds a free point.
    fn point(&mut self, alloc: Global, line: u32, name: &Name) -> Result<(), NoMemory>
        requires { Fits (point_lowered line self.old name.now) }
        ensures { OnOk result (self.new ≡ point_lowered line self.old name.now) }
    {
        let number = self.push(line, None, Instr::Free(self.points))?;
        self.numbers.add(alloc, name.bytes(), number)?;
        self.points += 1;
        Ok(())
    }

    fn points(&mut self, alloc: Global, line: u32, names: &[Name]) -> Result<(), NoMemory>
        requires { Fits (fold (point_lowered line) self.old names.now) }
        ensures { OnOk result (self.new ≡ fold (point_lowered line) self.old names.now) }
    {
        for name in names {
            self.point(alloc, line, name)?;
        }
        Ok(())
    }

    fn define(
        &mut self,
        alloc: Global,
        params: &[Name],
        line: u32,
        name: &Name,
        expr: &Expr,
    ) -> Result<(), NoMemory>
        requires params { length params.now ≤ 64 }
        requires formed { IsRecipe (recipe expr.now) }
        requires room { Fits (defined_lowered params.now line name.now (recipe expr.now) self.old) }
        ensures { OnOk result (self.new ≡ defined_lowered params.now line name.now (recipe expr.now) self.old) }
    {
        let instr = self.recipe(alloc, params, line, expr)?;
        let number = self.push(line, Some(self.definitions), instr)?;
        self.numbers.add(alloc, name.bytes(), number)?;
        self.definitions += 1;
        Ok(())
    }

    /// Adds the instructions of a statement, where the parameters have these names.
    pub fn statement(
        &mut self,
        alloc: Global,
        params: &[Name],
        statement: &Statement,
    ) -> Result<(), NoMemory>
        requires params { length params.now ≤ 64 }
        requires formed { IsSentence (sentence statement.now.body) }
        requires room { Fits (row_lowered params.now self.old (row statement.now)) }
        ensures { OnOk result (self.new ≡ row_lowered params.now self.old (row statement.now)) }
    {
        let line = statement.line;
        match &statement.body {
            Body::Free(names) => self.points(alloc, line, names.items()),
            Body::Define { name, expr, .. } => self.define(alloc, params, line, name, expr),
            Body::Conclude(claim) => self.claim(alloc, line, claim),
        }
    }
}

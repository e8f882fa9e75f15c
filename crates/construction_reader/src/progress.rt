//! What the lines of a text say so far.

ghost use Rattle.std.specs.Prelude.{◌≡◌, ◌≤◌, OnOk};
ghost use Rattle.std.specs.List.{list_any};
ghost use Rattle.construction_reader.specs.Words.{◌is◌};
ghost use Rattle.construction_reader.specs.Outcome.{Gives};
ghost use Rattle.construction_reader.specs.Said.{recipe, sentence};
ghost use Rattle.construction_reader.specs.Params.{with_param, with_params};
ghost use Rattle.construction_reader.specs.Texts.{progress, start, is_two, counts, adds, full_line, line_read, takes_line};

use crate::fault::{Kind, LineError};
use crate::lines::line_tokens;
use crate::name::Name;
use crate::sentences::sentence;
use crate::state::{Progress, Stage};
use crate::tokens::Token;
use crate::types::{Body, Expr, Statement};
use cay_base::NoMemory;
use std::alloc::Global;

/// How many names all `free` lines may have together.
const FREE: usize = 200;

const DEFINITIONS: usize = 2000;

const PARAMS: usize = 64;

fn is_two(first: &[u8], second: &[u8], tokens: &[Token]) -> bool
    ensures { result ≡ is_two first.now second.now tokens.now }
{
    match tokens {
        [a, b] => a.is(first) && b.is(second),
        _ => false,
    }
}

fn has_param(params: &[Name], name: &Name) -> bool
    ensures { result ≡ list_any (λ p. p is name.now) params.now }
{
    params.iter().any(|param| param.bytes() == name.bytes())
}

fn add_param(alloc: Global, params: &mut Vec<Name>, name: &Name) -> Result<(), NoMemory>
    ensures { OnOk result (params.new.items ≡ with_param params.old.items name.now) }
{
    if !has_param(params, name) {
        params.push(Name::new(alloc, name.bytes())?)?;
    }
    Ok(())
}

fn add_params(alloc: Global, params: &mut Vec<Name>, expr: &Expr) -> Result<(), NoMemory>
    ensures { OnOk result (params.new.items ≡ with_params params.old.items (recipe expr.now)) }
{
    if let Expr::On { s, t, .. } = expr {
        add_param(alloc, params, s)?;
        add_param(alloc, params, t)?;
    }
    Ok(())
}

impl Progress {
    pub fn new(alloc: Global) -> Self
        ensures { progress result ≡ start }
    {
        Progress {
            stage: Stage::Empty,
            rank: 0,
            statements: Vec::new(alloc),
            free: 0,
            definitions: 0,
            params: Vec::new(alloc),
        }
    }

    #[tactic(auto, unfolding(crate::specs::Texts::counts))]
    fn count(&mut self, alloc: Global, body: &Body) -> Result<(), LineError>
        ensures { Gives (λ _. progress self.new) result (counts (sentence body.now) (progress self.old)) }
    {
        match body {
            Body::Free(names) => {
                let count = names.items().len();
                if count > FREE - self.free {
                    return Err(LineError::Fault(Kind::TooMany));
                }
                self.free += count;
            }
            Body::Define { expr, .. } => {
                if self.definitions == DEFINITIONS {
                    return Err(LineError::Fault(Kind::TooMany));
                }
                add_params(alloc, &mut self.params, expr)?;
                if self.params.len() > PARAMS {
                    return Err(LineError::Fault(Kind::TooMany));
                }
                self.definitions += 1;
            }
            Body::Conclude(_) => self.stage = Stage::Concluded,
        }
        Ok(())
    }

    #[tactic(auto, unfolding(crate::specs::Texts::adds))]
    fn add(&mut self, alloc: Global, line: u32, body: Body) -> Result<(), LineError>
        ensures { Gives (λ _. progress self.new) result (adds line (sentence body) (progress self.old)) }
    {
        self.count(alloc, &body)?;
        self.statements.push(Statement { line, body })?;
        Ok(())
    }

    #[tactic(auto, unfolding(crate::specs::Texts::full_line, crate::specs::Texts::line_read))]
    fn read(&mut self, alloc: Global, line: u32, tokens: &[Token]) -> Result<(), LineError>
        ensures { Gives (λ _. progress self.new) result (line_read line tokens.now (progress self.old)) }
    {
        if tokens.is_empty() {
            return Ok(());
        }
        match self.stage {
            Stage::Empty => {
                if !is_two(b"construction", b"1", tokens) {
                    return Err(LineError::Fault(Kind::NoHeader));
                }
                self.stage = Stage::Named;
                Ok(())
            }
            Stage::Named => {
                if is_two(b"rank", b"3", tokens) {
                    self.rank = 3;
                } else if is_two(b"rank", b"4", tokens) {
                    self.rank = 4;
                } else {
                    return Err(LineError::Fault(Kind::NoHeader));
                }
                self.stage = Stage::Going;
                Ok(())
            }
            Stage::Going => {
                let body = sentence(alloc, tokens)?;
                self.add(alloc, line, body)
            }
            Stage::Concluded => Err(LineError::Fault(Kind::AfterConclusion)),
        }
    }

    #[tactic(auto, unfolding(crate::specs::Texts::takes_line))]
    pub fn take_line(&mut self, alloc: Global, number: u32, line: &[u8]) -> Result<(), LineError>
        ensures { Gives (λ _. progress self.new) result (takes_line number line.now (progress self.old)) }
    {
        let tokens = line_tokens(alloc, line)?;
        self.read(alloc, number, &tokens)
    }
}

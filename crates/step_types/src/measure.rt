//! The step, rows and degree of an object or a conclusion.

ghost use Rattle.std.specs.Prelude.{◌≡◌, ◌+◌, ◌^◌, ◌<◌, ◌≤◌, IfSome};
ghost use Rattle.step_types.specs.Measures.{weight, joined, met, of_step, mixed, crossing, pascal, both, none_of, with_rows, conic};

/// How large an object or a conclusion is.
#[derive(Clone, Copy, Debug, PartialEq, Eq)]
pub struct Measure {
    /// 1 for a point, 2 for a line, 3 for a plane.
    pub step: u64,
    /// How many brackets a product of its polynomials has at most.
    pub rows: u64,
    /// The degree of its polynomials in the parameters, at most.
    pub degree: u64,
}

/// The join of two objects, where their steps add up to less than the rank.
#[tactic(auto, unfolding(crate::specs::Measures::joined))]
pub fn join(rank: u64, a: Measure, b: Measure) -> Option<Measure>
    requires { weight a + weight b < 2 ^ 64 }
    ensures value { result ≡ joined rank a b }
    ensures small { IfSome result (λ m. weight m < weight a + weight b) }
{
    let step = a.step + b.step;
    if step < rank {
        Some(Measure {
            step,
            rows: a.rows + b.rows,
            degree: a.degree + b.degree,
        })
    } else {
        None
    }
}

/// The meet of two objects, where their steps add up to more than the rank.
#[tactic(auto, unfolding(crate::specs::Measures::met))]
pub fn meet(rank: u64, a: Measure, b: Measure) -> Option<Measure>
    requires { weight a + weight b < 2 ^ 64 }
    ensures value { result ≡ met rank a b }
    ensures small { IfSome result (λ m. weight m ≤ weight a + weight b) }
{
    let step = a.step + b.step;
    if rank < step {
        Some(Measure {
            step: step - rank,
            rows: a.rows + b.rows + 1,
            degree: a.degree + b.degree,
        })
    } else {
        None
    }
}

#[tactic(auto, unfolding(crate::specs::Measures::of_step))]
pub fn of_step(step: u64, m: Measure) -> Option<Measure>
    ensures value { result ≡ of_step step m }
    ensures small { IfSome result (λ same. weight same ≤ weight m) }
    ensures step { IfSome result (λ same. same.step ≡ step) }
{
    if m.step == step { Some(m) } else { None }
}

/// A point on the line through two points, by two parameters.
#[tactic(auto, unfolding(crate::specs::Measures::mixed))]
pub fn mixed(a: Measure, b: Measure) -> Option<Measure>
    requires { weight a + weight b < 2 ^ 64 }
    ensures value { result ≡ mixed a b }
    ensures small { IfSome result (λ m. weight m ≤ weight a + weight b) }
{
    if a.step == 1 && b.step == 1 {
        Some(Measure {
            step: 1,
            rows: a.rows.max(b.rows),
            degree: a.degree.max(b.degree) + 1,
        })
    } else {
        None
    }
}

/// Where the line through `a` and `b` meets the line through `c` and `d`.
#[tactic(auto, unfolding(crate::specs::Measures::crossing))]
fn crossing(rank: u64, a: Measure, b: Measure, c: Measure, d: Measure) -> Option<Measure>
    requires { weight a + weight b + weight c + weight d < 2 ^ 64 }
    ensures value { result ≡ crossing rank a b c d }
    ensures small { IfSome result (λ m. weight m ≤ weight a + weight b + weight c + weight d) }
{
    let first = join(rank, a, b)?;
    let second = join(rank, c, d)?;
    meet(rank, first, second)
}

/// The second point of a conic through five points, on the line through `a` and `q`.
#[tactic(auto, unfolding(crate::specs::Measures::pascal))]
pub fn pascal(
    rank: u64,
    a: Measure,
    b: Measure,
    c: Measure,
    d: Measure,
    e: Measure,
    q: Measure,
) -> Option<Measure>
    requires { weight a + weight b + weight c + weight d + weight e + weight q < 2 ^ 48 }
    ensures value { result ≡ pascal rank a b c d e q }
    ensures small { IfSome result (λ m. weight m < 2 ^ 50) }
{
    let x = crossing(rank, a, b, d, e)?;
    let y = crossing(rank, a, q, c, d)?;
    let z = crossing(rank, b, c, x, y)?;
    crossing(rank, a, q, e, z)
}

/// Rows and degree of both, added up.
pub fn both(a: Measure, b: Measure) -> Measure
    requires { weight a + weight b < 2 ^ 64 }
    ensures { result ≡ both a b }
{
    Measure {
        step: b.step,
        rows: a.rows + b.rows,
        degree: a.degree + b.degree,
    }
}

/// No rows and no degree, at this step.
pub fn none_of(step: u64) -> Measure
    ensures { result ≡ none_of step }
{
    Measure {
        step,
        rows: 0,
        degree: 0,
    }
}

/// The measure at this step, with so many rows more.
pub fn with_rows(step: u64, more: u64, m: Measure) -> Measure
    requires { weight m + more < 2 ^ 64 }
    ensures { result ≡ with_rows step more m }
{
    Measure {
        step,
        rows: m.rows + more,
        degree: m.degree,
    }
}

/// Whether six points are on a conic: two products of four brackets.
pub fn conic(m: Measure) -> Measure
    requires { weight m < 2 ^ 60 }
    ensures { result ≡ conic m }
{
    Measure {
        step: 0,
        rows: 2 * m.rows + 4,
        degree: 2 * m.degree,
    }
}

//! The words behind the program's name.

ghost use Rattle.std.specs.Prelude.{◌≡◌, ◌≢◌, ◌∷◌, [], true, false, codes, map, string_bytes};
ghost use Rattle.std.specs.Prelude.{IsSome, MatchOption, Some, None};
ghost use Rattle.prover.specs.Modes.{IsMode, IsUsage};
ghost use Rattle.prover.specs.Words.{AddsChoices, AddsNone, GiveOptions, NoOptions, IsNumber, NoNumber};

use crate::mode::Mode;
use cayley_run::Options;

/// How many turns a run may make where the words do not say it.
const USUAL_TURNS: u64 = 1_000_000;

/// The greatest number of turns that the words may give a run.
const MOST_TURNS: u64 = 10_000_000;

/// The greatest number of a sample.
const LAST_SAMPLE: u64 = 12;

/// The mode that the words name, where they are a list that the program takes.
pub fn mode_of(words: &[String]) -> Option<Mode>
    ensures { MatchOption result (IsUsage (map string_bytes words.now)) (IsMode (map string_bytes words.now)) }
{
    let [mode, rest @ ..] = words else {
        return None;
    };
    match mode.as_str() {
        "prove" => Some(Mode::Prove(options(rest)?)),
        "check" => alone(Mode::Check, rest),
        "same" => Some(Mode::Same(options(rest)?)),
        "sample" => sample(rest),
        _ => None,
    }
}

/// A mode without options, where no word is left.
fn alone(mode: Mode, words: &[String]) -> Option<Mode>
    ensures { MatchOption result (map string_bytes words.now ≢ [])
        (λ named. (named ≡ mode) × (map string_bytes words.now ≡ [])) }
{
    if words.is_empty() { Some(mode) } else { None }
}

/// The sample that these words behind the mode's own name.
fn sample(words: &[String]) -> Option<Mode>
    ensures { MatchOption result
        (IsUsage (codes "sample" ∷ map string_bytes words.now))
        (IsMode (codes "sample" ∷ map string_bytes words.now)) }
{
    let [word, rest @ ..] = words else {
        return None;
    };
    let number = number(word.as_str(), LAST_SAMPLE)?;
    let options = plain(options(rest)?)?;
    Some(Mode::Sample {
        number: number as u32,
        budget: options.budget,
    })
}

/// The options, where contraction is not among them.
fn plain(options: Options) -> Option<Options>
    ensures { MatchOption result (options.contract ≡ true) (λ same. (same ≡ options) × (options.contract ≡ false)) }
{
    if options.contract {
        None
    } else {
        Some(options)
    }
}

/// What the options among the words have given so far.
#[derive(Clone, Copy, Debug)]
struct Chosen {
    budget: Option<u64>,
    contract: bool,
}

impl Chosen {
    /// With so many turns, where no number was chosen before.
    fn with_turns(self, number: u64) -> Option<Chosen>
        ensures { MatchOption result (IsSome self.budget)
            (λ new. (self.budget ≡ None) × (new ≡ record self { budget = Some number })) }
    {
        if self.budget.is_some() {
            return None;
        }
        Some(Chosen {
            budget: Some(number),
            ..self
        })
    }

    /// With contraction, where it was not chosen before.
    fn with_contraction(self) -> Option<Chosen>
        ensures { MatchOption result (self.contract ≡ true)
            (λ new. (self.contract ≡ false) × (new ≡ record self { contract = true })) }
    {
        if self.contract {
            return None;
        }
        Some(Chosen {
            contract: true,
            ..self
        })
    }
}

/// What the words give, where they are options in any order, each kind at most once.
fn options(words: &[String]) -> Option<Options>
    ensures { MatchOption result (NoOptions (map string_bytes words.now)) (GiveOptions (map string_bytes words.now)) }
{
    let nothing = Chosen {
        budget: None,
        contract: false,
    };
    let chosen = choose(nothing, words)?;
    Some(Options {
        budget: chosen.budget.unwrap_or(USUAL_TURNS),
        contract: chosen.contract,
    })
}

/// Adds the options that the words are to those chosen before. A kind that comes again ends it.
fn choose(chosen: Chosen, words: &[String]) -> Option<Chosen>
    ensures { MatchOption result (AddsNone (map string_bytes words.now) chosen)
        (AddsChoices (map string_bytes words.now) chosen) }
{
    let [option, rest @ ..] = words else {
        return Some(chosen);
    };
    match option.as_str() {
        "--contract" => choose(chosen.with_contraction()?, rest),
        "--budget" => {
            let [word, rest @ ..] = rest else {
                return None;
            };
            let number = number(word.as_str(), MOST_TURNS)?;
            choose(chosen.with_turns(number)?, rest)
        }
        _ => None,
    }
}

/// The number from 1 to the most that a word tells in its one spelling.
fn number(word: &str, most: u64) -> Option<u64>
    ensures { MatchOption result (NoNumber most word.now) (IsNumber most word.now) }
{
    let Ok(number) = word.parse::<u64>() else {
        return None;
    };
    let mut spelling = itoa::Buffer::new();
    if number >= 1 && number <= most && spelling.format(number) == word {
        Some(number)
    } else {
        None
    }
}

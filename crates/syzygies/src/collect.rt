//! Collecting the terms of a sum: each pair of brackets once, in ascending order, and none with the integer 0.
ghost use Rattle.std.specs.Prelude.{◌≡◌, ◌<◌, IfOk, OnOk, length};
ghost use Rattle.std.specs.List.{AllByRecursion};
ghost use Rattle.coordinate_model.specs.Key.{key_cmp};
ghost use Rattle.syzygies.specs.Terms.{pair_of, terms_of};
ghost use Rattle.syzygies.specs.SplitTerms.{IsSign};
ghost use Rattle.syzygies.specs.Collected.{IsSmall, FindsPlace, AddsAt, Adds};

use crate::pair::PairTerm;
use cay_base::NoMemory;
use std::cmp::Ordering;

/// Adds a term to collected ones.
pub(crate) fn collect<const D: usize>(
    terms: &mut Vec<PairTerm<D>>,
    term: PairTerm<D>,
) -> Result<(), NoMemory>
    requires small { AllByRecursion IsSmall (terms_of terms.old.items) }
    requires one { IsSign term.sign_count }
    ensures { OnOk result (Adds term.entry terms.old.items terms.new.items) }
{
    match find(terms, &term) {
        Ok(place) => {
            add_at(terms, place, term.sign_count);
            Ok(())
        }
        Err(place) => Ok(terms.insert(place, term)?),
    }
}

/// The place of the term with the same pair, or else the place where the pair is to be put in.
fn find<const D: usize>(terms: &[PairTerm<D>], term: &PairTerm<D>) -> Result<usize, usize>
    ensures place { FindsPlace (pair_of term.now) (terms_of terms.now) result }
    ensures found { IfOk result (λ place. place < length terms.now) }
{
    for (place, found) in terms.iter().enumerate() {
        match compare(term, found) {
            Ordering::Less => return Err(place),
            Ordering::Equal => return Ok(place),
            Ordering::Greater => {}
        }
    }
    Err(terms.len())
}

/// Adds the integer to the term at the place.
fn add_at<const D: usize>(terms: &mut Vec<PairTerm<D>>, place: usize, more: i8)
    requires within { place < length terms.old.items }
    requires small { AllByRecursion IsSmall (terms_of terms.old.items) }
    requires one { IsSign more }
    ensures { AddsAt place more (terms_of terms.old.items) (terms_of terms.new.items) }
{
    let found = terms[place];
    let sign_count = found.sign_count + more;
    if sign_count == 0 {
        terms.remove(place);
    } else {
        terms[place] = PairTerm {
            sign_count,
            low: found.low,
            high: found.high,
        };
    }
}

/// Compares the pairs of brackets of two terms.
fn compare<const D: usize>(term: &PairTerm<D>, other: &PairTerm<D>) -> Ordering
    ensures { result ≡ key_cmp (pair_of term.now) (pair_of other.now) }
{
    term.low.cmp(&other.low).then(term.high.cmp(&other.high))
}

//! Van der Waerden syzygies with their terms collected, and the one that rewrites a tableau at its first violation.
#![tactic(auto)]

mod collect;
mod collected;
pub mod laws;
mod multiple;
mod multiple_in;
mod pair;
mod place;
mod points;
mod row_buffer;
mod split_term;

pub use collected::syzygy;
pub use multiple::{add_multiple, product_within};
pub use multiple_in::{add_multiple_in, add_pair_in};
pub use pair::PairTerm;
pub use place::{Parts, at_place};

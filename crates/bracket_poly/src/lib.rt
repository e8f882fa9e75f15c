//! Bracket polynomials with exact limits, and the values and logs that are made of them.
#![tactic(auto)]

mod adding;
mod arena_adding;
mod arena_finishing;
mod arena_loading;
mod arena_poly;
mod arena_table;
mod arena_terms;
mod copying;
mod error;
mod headed_key;
mod held;
mod key;
mod key_order;
mod key_walk;
pub mod laws;
mod making;
mod met;
mod multiplying;
mod numbers;
mod poly;
mod reading;
mod section;
mod terms;
mod value;
mod view_key;

pub use arena_poly::ArenaPoly;
pub use arena_table::ArenaTable;
pub use arena_terms::ArenaTerms;
pub use bracket_terms::Items;
pub use error::PolyError;
pub use held::Held;
pub use key::Key;
pub use met::Met;
pub use poly::Poly;
pub use section::{ObjectLog, Section};
pub use terms::Terms;
pub use value::Value;
pub use view_key::ViewKey;

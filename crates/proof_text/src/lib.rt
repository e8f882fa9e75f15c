//! Proof texts: the lines of a proof, what they say, and which texts are proofs.
#![tactic(auto)]

mod adding;
mod body;
mod cut;
mod error;
mod fault;
mod form;
mod key;
mod kinds;
pub mod laws;
mod line;
mod line_words;
mod log_use;
mod meaning;
mod moves;
mod numbers;
mod outline;
mod points;
mod polynomial;
mod powers;
mod products;
mod proof;
mod reading;
mod scalars;
mod section;
mod spelling;
mod state;
mod stop;
mod taking;
mod term;
mod whole;
mod word;

pub use cut::first_line;
pub use error::WriteError;
pub use fault::{ProofError, ProofFault, ProofKind};
pub use key::add_key;
pub use outline::{write_head, write_object, write_stop, write_verdict};
pub use polynomial::write_terms;
pub use proof::Proof;
pub use reading::read_proof;
pub use section::write_section;
pub use stop::Stop;

//! Construction texts: read, and printed.
#![tactic(auto)]

mod construction;
mod fault;
mod items;
mod laws;
mod lines;
mod name;
mod objects;
mod printing;
mod progress;
mod reading;
mod sentences;
mod state;
mod tokens;
mod types;

pub use construction::Construction;
pub use fault::{Kind, ReadTextError, TextFault};
pub use items::Items;
pub use laws::{given_by_text, one_conclusion, one_outcome, printed_text};
pub use name::Name;
pub use printing::print;
pub use reading::{LONGEST, read};
pub use types::{Arg, Body, Conclusion, Expr, ObjectKind, Statement};

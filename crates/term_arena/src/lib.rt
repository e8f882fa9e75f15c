//! Row lists that are placed in an arena once, with numbers in the order in which they first came.
#![tactic(auto)]

mod id;
mod store;
mod view;

pub use id::{Id, StoreError};
pub use store::Store;
pub use view::View;

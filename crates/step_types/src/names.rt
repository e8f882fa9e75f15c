//! The names of a construction that stand for what is given.

use construction_reader::{Items, Name};

/// The rank, the free points as they are written, and the parameters in the order of their first uses.
#[derive(Debug, Drop)]
pub struct Names {
    pub rank: u8,
    pub free: Items<Name>,
    pub params: Items<Name>,
}

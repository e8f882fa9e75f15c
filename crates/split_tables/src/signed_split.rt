//! Splits of places.

/// A set of places and the others, as masks: the bit i stands for the place i, counted from 0.
#[derive(Clone, Copy, Debug, PartialEq, Eq)]
pub struct SignedSplit {
    pub chosen: u8,
    pub rest: u8,
    /// The sign, +1 or -1, of the chosen places in order followed by the others in order.
    pub sign: i8,
}

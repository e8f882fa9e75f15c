//! Why a run stopped.

/// What a run stopped at.
#[derive(Clone, Copy, Debug, PartialEq, Eq)]
pub enum Stop {
    /// There was no turn left.
    Turns,
    /// A coefficient would have passed 2^127 - 1 in absolute value.
    Coefficient,
    /// A polynomial would have met more than 2,097,152 keys.
    Keys,
}

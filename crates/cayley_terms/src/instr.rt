//! Single instructions.

/// What makes an object of earlier ones, each named by the number of its instruction.
#[derive(Clone, Copy, Debug, PartialEq, Eq)]
pub enum Instr {
    /// The free point of this number.
    Free(u8),
    Join(u32, u32),
    Meet(u32, u32),
    /// The point s * a + t * b, with the parameters of the numbers s and t.
    On {
        a: u32,
        b: u32,
        s: u8,
        t: u8,
    },
    /// The six-point polynomial of six points, which is zero where they are on a conic.
    Conic {
        p1: u32,
        p2: u32,
        p3: u32,
        p4: u32,
        p5: u32,
        p6: u32,
    },
}

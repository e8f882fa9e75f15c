//! Logs: what the run did for each object.
use crate::poly::Poly;
use bracket_terms::{Extensor, Items, LogUse};

/// How one polynomial was made normal: it starts as a sum of products, the uses of syzygies are added to it in order, and
/// so it ends.
#[derive(Drop)]
pub struct Section<const D: usize> {
    /// The extensor whose polynomial it is.
    pub scalar: Extensor,
    pub start: Poly<D>,
    pub uses: Items<LogUse<D>>,
    /// Nothing where the run stopped in this section.
    pub end: Option<Poly<D>>,
}

/// The sections of one object, which is counted from 1.
#[derive(Drop)]
pub struct ObjectLog<const D: usize> {
    pub number: u32,
    pub step: u8,
    pub sections: Items<Section<D>>,
}

//! What a crew works with.

use std::alloc::Global;

/// What a crew works with when it runs a window.
#[derive(Clone, Copy)]
pub struct Setting<'a, R, G> {
    /// The runtime: what starts threads, and waits.
    pub rt: &'a R,

    /// Where memory comes from.
    pub alloc: Global,

    /// The waiting points of tests.
    pub gate: &'a G,
}

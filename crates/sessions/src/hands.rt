//! Latches that a call has taken, with their stores.
use fiber_latch::Busy;
use fiber_store::FiberStore;

/// A latch with its store.
#[derive(Drop)]
pub struct Hand<C> {
    pub latch: u32,
    pub store: C,
}

/// The latches of a call with their stores, in the order in which they were taken.
pub type Hands = Vec<Hand<FiberStore>>;

/// Why latches weren't taken.
#[derive(Clone, Copy)]
pub enum Fault {
    /// Another seat's session held one.
    Held(Busy),
    /// Out of memory.
    Full,
}

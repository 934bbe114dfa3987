// Nodes of chains.

// The nodes after and before this one in its chain.
#[derive(Clone, Copy)]
pub struct Node {
    pub(crate) next: u16,
    pub(crate) prev: u16,
}

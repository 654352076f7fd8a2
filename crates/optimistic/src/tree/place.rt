//! Nodes on the way to a key.

/// A node, its form, and its level: which byte of a key it tells apart.
#[derive(Clone, Copy, Drop)]
pub struct Place {
    pub node: usize,
    pub form: u64,
    pub level: u64,
}

/// The two words of a child. Where there is none, the first is 0.
#[derive(Clone, Copy, Drop)]
pub struct Child {
    pub first: u64,
    pub second: u64,
}

/// What a look at a node told.
#[derive(Clone, Copy, Drop)]
pub enum Look {
    /// The key's value.
    Answer(Option<u64>),
    /// The key's next node.
    Down(Place),
    /// The node was changed meanwhile, or doesn't cover the key.
    Again,
}

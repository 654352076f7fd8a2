//! What a thread shows at each call on an index that threads share.

ghost use Rattle.std.specs.Prelude.{◌≡◌};

/// A place in the table of an index. One that is dropped stays registered: `release` it.
#[derive(Debug, PartialEq, Eq, Drop)]
pub struct Worker {
    /// The number of its index.
    pub(crate) tree: u64,
    pub(crate) number: u32,
}

impl Worker {
    /// Its place in the table, counted from 0.
    pub fn number(&self) -> u32
        ensures { result ≡ self.now.number }
    {
        self.number
    }
}

/// Keeps a worker pinned. It is spent by `unpin`, and can't be dropped.
#[derive(Debug, PartialEq, Eq)]
pub struct Guard {
    /// The number of its index.
    pub(crate) tree: u64,
    pub(crate) worker: u32,
}

impl Guard {
    /// Ends a guard that no index takes; its worker stays pinned.
    pub fn forget(self) {
        let Guard { tree: _, worker: _ } = self;
    }
}

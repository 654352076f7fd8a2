//! What a line of a script asks for.

/// How a tree is opened. The limits that aren't given stand at their greatest.
#[derive(Clone, Copy)]
pub struct Opening {
    pub participants: u64,
    pub cells: u64,
    /// The most bytes that the nodes may take.
    pub limit: Option<u64>,
    /// The greatest version of a node.
    pub version: Option<u64>,
    /// The places of the journal.
    pub journal: Option<u64>,
}

/// What a worker asks of the tree.
#[derive(Clone, Copy)]
pub enum LineCall {
    Pin,
    Unpin,
    Repin,
    Flush,
    Release,
    Get(u64),
    Remove(u64),
    Insert(u64, u64),
    /// The value of a key that is present grows by the number.
    PresentAdd(u64, u64),
    /// A key that is present goes.
    PresentDrop(u64),
    /// The number for an absent key, else the value plus the number.
    OrInsert(u64, u64),
    /// The new value in place of the old one.
    Exchange(u64, u64, u64),
    /// The key goes where it has the old value.
    ExchangeDrop(u64, u64),
    /// The keys from the first up to the second, so many at most.
    Range(u64, u64, u64),
    /// The keys from the first to the second, itself included, so many at most.
    Through(u64, u64, u64),
    Keys,
    Empty,
    Stats,
}

/// A command of the script. The first number of those that have a worker is its number.
#[derive(Clone, Copy)]
pub enum Command {
    New(Opening),
    Register,
    Charged,
    Waiting,
    Journal,
    Close,
    /// A whole call.
    Call(u32, LineCall),
    /// A call's first step alone.
    Begin(u32, LineCall),
    /// So many further steps of the call in flight.
    Go(u32, u64),
    /// One further step, whose upgrade fails.
    Fail(u32),
    /// So many rounds of pin, flush and unpin.
    Round(u32, u64),
}

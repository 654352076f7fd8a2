//! The limits of a collector.

ghost use Rattle.std.specs.Prelude.{◌≡◌};
ghost use Rattle.crossbeam_epoch.specs.Limits.{within};

/// What a collector is opened with.
#[derive(Clone, Copy, Debug, PartialEq, Eq, Drop)]
pub struct Limits {
    /// Places of the table: 1 to 256.
    pub participants: u32,
    /// Cells: 1 to 16,777,215.
    pub cells: u32,
    /// The last turn that a cell may have; its first value has turn 0.
    pub turn_max: u32,
    /// The epoch at which the advance stops: 3 to 2^62.
    pub epoch_max: u64,
    /// How far the epoch has to be past a bag's seal: 2, or 1 to show that 1 is too little.
    pub expiry: u64,
}

impl Limits {
    /// Whether each limit lies within its bounds.
    pub fn is_within(&self) -> bool
        ensures { result ≡ within self.now }
    {
        1 <= self.participants
            && self.participants <= 256
            && 1 <= self.cells
            && self.cells <= 16_777_215
            && 3 <= self.epoch_max
            && self.epoch_max <= 1 << 62
            && 1 <= self.expiry
            && self.expiry <= 2
    }
}

//! What bounds an index.

ghost use Rattle.std.specs.Prelude.{◌≡◌, ◌↔◌, IsTrue};
ghost use Rattle.joint.specs.Limits.{AreAllowed, usual};

/// The most cells of an index: as many as the collector has at most.
pub(crate) const CELLS_MAX: u32 = 16_777_215;

/// Limits of an index.
#[derive(Clone, Copy, Debug, PartialEq, Eq, Drop)]
pub struct Limits {
    /// Of the collector and its cells. Its expiry is 2.
    pub epoch: crossbeam_epoch::Limits,
    /// The greatest version of a node, 1 to 2^60 - 1.
    pub version_max: u64,
    /// The number of a threaded index, which its caller chooses. Each index wants a number of its own: where two have the
    /// same, a worker and a guard of the one are taken by the other, and can read and write there.
    pub id: u64,
}

impl Limits {
    /// So many workers and cells, every other limit at its greatest, expiry 2, number 0. Beside another index give each a
    /// number of its own, as `Limits::usual(2, 1000).with_id(1)`: a worker of one is taken by another of the same number.
    pub fn usual(participants: u32, cells: u32) -> Limits
        ensures { result ≡ usual participants cells }
    {
        Limits {
            epoch: crossbeam_epoch::Limits {
                participants,
                cells,
                turn_max: u32::MAX,
                epoch_max: 4_611_686_018_427_387_904,
                expiry: 2,
            },
            version_max: 1_152_921_504_606_846_975,
            id: 0,
        }
    }

    /// The same limits, for the index of this number.
    pub fn with_id(self, id: u64) -> Limits
        ensures { result ≡ record self { id = id } }
    {
        Limits { id, ..self }
    }

    /// Whether each limit is in its range.
    pub fn are_allowed(&self) -> bool
        ensures { IsTrue result ↔ AreAllowed self.now }
    {
        let epoch = &self.epoch;
        1 <= epoch.participants
            && epoch.participants <= 256
            && 1 <= epoch.cells
            && epoch.cells <= CELLS_MAX
            && 3 <= epoch.epoch_max
            && epoch.epoch_max <= 4_611_686_018_427_387_904
            && epoch.expiry == 2
            && 1 <= self.version_max
            && self.version_max <= 1_152_921_504_606_846_975
    }
}

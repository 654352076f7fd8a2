//! The protocol of a call on a shared tree: optimistic lock coupling, a step at a time, over any `store` of nodes.
//!
//! A lock word has a version, a lock and a mark. A call takes a node's version, reads the node, and checks that the
//! word is still the one taken; what was read is true at that check, and the call follows it, takes effect, or makes
//! what it needs. Before it changes a node it locks it, by one exchange from the version that it took; letting go
//! raises the version. Where a check or an exchange fails, what was made goes back, each lock that is held is let go in
//! a step of its own, and the call begins anew at the root. Locks are taken from the upper node down.
//!
//! A `machine` is one call. Its `phase` is the next step, which each step changes where it lies; `node_steps` has the steps
//! that make, lock or change nodes, and `changes` what a change writes to them. `next_phase` says where the store's answer
//! leads, `moves` what a step leaves and reports. `state` has what a call says of itself between two steps, to whoever keeps
//! it. The ways on:
//!
//! | The call finds | Its phases |
//! |---|---|
//! | its way | `Version`, `Read`, `Check`, and for an insertion `CheckDown`, at each node |
//! | a node whose prefix differs | `CheckMiss`; an insertion splits: `MakeTop`, `MakeBeside`, `AskNew`, `UpgradeAbove`, `UpgradeBelow`, `ChangeAbove`, `UnlockBelow`, `Unlock` |
//! | no child, room for one | `MakeLeaf` below an inner node, `AskNew`, `CheckAbove`, `UpgradeHere`, `ChangeHere`, `Unlock` |
//! | no child, no room: growth | `MakeLeaf` below an inner node, `MakeGreater`, `AskNew`, `UpgradeAbove`, `UpgradeBelow`, `ChangeAbove`, `Obsolete`, `Retire`, `Unlock` |
//! | a value, and keeps it | `CheckOld` for an insertion, `AskOld`, `Confirm` |
//! | a value, and puts another or none | `CheckOld`, `AskOld`, `UpgradeHere`, `ChangeHere`, `Unlock` |
//! | a value, and takes it from a leaf that few are left in | `AskOld`, `MakeLesser`, `UpgradeAbove`, `UpgradeBelow`, `ChangeAbove`, `Obsolete`, `Retire`, `Unlock` |
//! | the leaf's last value, and takes it | `AskOld`, `UpgradeAbove`, `UpgradeBelow`, `ChangeAbove`, `Obsolete`, `Retire`, `Unlock` |
//! | the same below a node that one child is left in, or few | `AskOld`, for few `MakeLesser`, `UpgradeTop`, `UpgradeAbove`, `UpgradeBelow`, `ChangeAbove`, `Obsolete` and `Retire` of both, `Unlock` |
//! | a lower lock not free | `Unwind` at each lock that is held, then anew, or refused |
//!
//! Only a call with a closure asks. A scan is one phase, `Scan`, with stages of its own in `scan`.
mod changes;
mod laws;
mod machine;
mod moves;
mod next_phase;
mod node_steps;
mod op;
mod phase;
mod plain;
mod plain_node;
mod run;
mod scan;
mod sizes;
mod state;
mod store;

pub use machine::{Machine, Move, Noise, Outcome};
pub use next_phase::NextPhase;
pub use op::Op;
pub use phase::{
    Above, Kind, NodeChange, Parent, ParentChange, Phase, Placement, Plan, Replacement, Site,
};
pub use plain::PlainStore;
pub use plain_node::{PlainNode, first_difference};
pub use run::{Played, Step, play, play_into, step_of};
pub use scan::{Path, Rung, ScanReport, ScanState, Stage};
pub use store::{Least, NodeName, Reading, Refusal, Region, Seen, Stamp, Store, Upgrade};

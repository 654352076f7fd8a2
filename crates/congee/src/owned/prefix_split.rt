//! Where a key parts from the prefix of a node that isn't on its way.
ghost use Rattle.std.specs.Prelude.{◌≡◌, ◌≤◌, length, slice_index, false};
ghost use Rattle.congee.specs.Heap.{fits};
ghost use Rattle.congee.specs.owned.Changes.{DiffersAt};
ghost use Rattle.congee.specs.declared.forms.prefix.TheConstants.{MAX_PREFIX_LEN};

use crate::keys::KEY_BYTES;

/// The first place where a key and a prefix differ, and the prefix's byte there.
#[derive(Drop)]
pub(crate) struct Parting {
    pub(crate) place: usize,
    pub(crate) other: u8,
}

/// The first place where a key and a prefix that it lacks differ.
fn first_apart(key: &[u8; KEY_BYTES], prefix: &[u8]) -> usize
    requires short { length prefix.now ≤ MAX_PREFIX_LEN }
    requires differs { fits prefix.now key.now ≡ false }
    ensures { DiffersAt key.now prefix.now result }
{
    let mut common = 0;
    while key[common] == prefix[common] {
        common += 1;
    }
    common
}

impl Parting {
    /// Of a key and a prefix that it lacks.
    pub(crate) fn of(key: &[u8; KEY_BYTES], prefix: &[u8]) -> Self
        requires short { length prefix.now ≤ MAX_PREFIX_LEN }
        requires differs { fits prefix.now key.now ≡ false }
        ensures place { DiffersAt key.now prefix.now result.place }
        ensures other { result.other ≡ slice_index prefix.now result.place }
    {
        let place = first_apart(key, prefix);
        Parting {
            place,
            other: prefix[place],
        }
    }
}

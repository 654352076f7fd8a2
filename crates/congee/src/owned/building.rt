//! Owned trees that are made of pairs.
ghost use Rattle.std.specs.Prelude.{◌≡◌, ◌<◌, IfSome, IfOk, IfErr, IsTrue, ◌↔◌};
ghost use Rattle.std.specs.Iterator.{IsFinite};
ghost use Rattle.congee.specs.owned.Building.{BuildsAll, CopyRefused, IsBuildError, IsOver};

use crate::allocator::{Allocator, OOMError};
use crate::owned::congee::Congee;
use crate::owned::drainer::NoDrain;
use crate::owned::numbers::number_after;
use judge::Word64;
use std::alloc::Global;
use thiserror::Error;

/// Why a tree wasn't made of pairs.
#[derive(Clone, Copy, PartialEq, Eq, Debug, Drop, Error)]
pub enum BuildError {
    /// The key of a pair isn't greater than the one before; so many pairs come before it. A number past `u64::MAX` stays there.
    #[error("pair {place} is out of order")]
    OutOfOrder { place: u64 },
    /// There was no room for a node.
    #[error("{0}")]
    Refused(OOMError),
}

impl From<OOMError> for BuildError {
    ghost use Rattle.congee.specs.declared.owned.building.BuildError.TheVariants.{Refused};

    ghost from_gives = { λ e r. r ≡ Refused e };

    fn from(error: OOMError) -> Self {
        BuildError::Refused(error)
    }
}

/// Whether a number comes after another, if there is one.
fn is_past(key: u64, last: Option<u64>) -> bool
    ensures { IsTrue result ↔ IfSome last (λ n. n < key) }
{
    match last {
        Some(last) => last < key,
        None => true,
    }
}

impl<K: Word64, V: Word64, A: Allocator> Congee<K, V, A, NoDrain> {
    /// A tree of pairs whose keys ascend, over the allocator. It is refused for a pair out of order, budget or memory.
    pub fn from_sorted<I: IntoIterator<Item = (K, V)> + Drop>(
        alloc: Global,
        allocator: A,
        pairs: I,
    ) -> Result<Self, BuildError>
        requires { (it : I.IntoIter) → I.into_iter_gives pairs it → I.IntoIter.can_next it × IsFinite (I.IntoIter.remaining it) }
        ensures built { IfOk result (λ t. BuildsAll I.into_iter_gives I.IntoIter.next_gives K.word V.word pairs t.pairs) }
        ensures over { IfOk result (IsOver A.charged_of A.limit_of allocator) }
        ensures refused { IfErr result (IsBuildError I.into_iter_gives I.IntoIter.next_gives K.word V.word A.charged_of A.limit_of allocator pairs) }
    {
        let mut tree = Congee::new(alloc, allocator)?;
        let mut last = None;
        let mut place = 0u64;
        let mut near = 0;
        for pair in pairs {
            let (key, value) = pair;
            let number = key.to_word();
            if !is_past(number, last) {
                return Err(BuildError::OutOfOrder { place });
            }
            near = tree.insert_number_near(near, number, value.to_word())?;
            last = Some(number);
            place = place.saturating_add(1);
        }
        Ok(tree)
    }
}

impl<K: Word64, V: Word64, A: Allocator, D: Drop> Congee<K, V, A, D> {
    /// A tree of the same pairs over another allocator, or over this one's copy. The pairs go in one after the other, ascending.
    pub fn try_clone<B: Allocator>(
        &self,
        alloc: Global,
        allocator: B,
    ) -> Result<Congee<K, V, B, NoDrain>, OOMError>
        ensures same { IfOk result (λ t. t.pairs ≡ self.now.pairs) }
        ensures over { IfOk result (IsOver B.charged_of B.limit_of allocator) }
        ensures refused { IfErr result (CopyRefused B.charged_of B.limit_of allocator self.now) }
    {
        let mut copy = Congee::new(alloc, allocator)?;
        let mut next = self.numbers_from(Some(0));
        let mut near = 0;
        while let Some((key, value)) = next {
            near = copy.insert_number_near(near, key, value)?;
            next = self.numbers_from(number_after(key));
        }
        Ok(copy)
    }
}

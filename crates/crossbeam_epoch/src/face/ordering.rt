//! Memory orderings of `compare_and_set`.

ghost use Rattle.std.specs.Prelude.{◌≡◌};
ghost use Rattle.crossbeam_epoch.specs.face.Ordering.{failure_of};

use std::sync::atomic::Ordering;

/// The orderings of a compare-and-set, by success and by failure (the source's `CompareAndSetOrdering`).
/// They are kept for their callers; every step is sequentially consistent.
pub trait CompareAndSetOrdering: Drop {
    ghost use Rattle.std.specs.Prelude.{◌≡◌};
    ghost use Rattle.std.specs.declared.sync.atomic.Ordering.{Ordering};

    ghost on_success: { Self → Ordering };

    ghost on_failure: { Self → Ordering };

    /// The ordering where the pointer was written.
    fn success(&self) -> Ordering
        ensures { result ≡ on_success self.now };

    /// The ordering where it wasn't.
    fn failure(&self) -> Ordering
        ensures { result ≡ on_failure self.now };
}

impl CompareAndSetOrdering for Ordering {
    ghost on_success = { λ o. o };

    ghost on_failure = { failure_of };

    fn success(&self) -> Ordering {
        *self
    }

    fn failure(&self) -> Ordering {
        match self {
            Ordering::Relaxed | Ordering::Release => Ordering::Relaxed,
            Ordering::Acquire | Ordering::AcqRel => Ordering::Acquire,
            Ordering::SeqCst => Ordering::SeqCst,
        }
    }
}

impl CompareAndSetOrdering for (Ordering, Ordering) {
    ghost on_success = { λ o. o.0 };

    ghost on_failure = { λ o. o.1 };

    fn success(&self) -> Ordering {
        self.0
    }

    fn failure(&self) -> Ordering {
        self.1
    }
}

//! What can be put into an `Atomic`.

ghost use Rattle.std.specs.Prelude.{◌≡◌};
ghost use Rattle.crossbeam_epoch.specs.face.Pointer.{is_foreign};

use crate::face::guard::Guard;
use crate::face::link::{Link, Site, Tagged};
use crate::face::owned::Owned;
use crate::face::shared::Shared;
use crate::fault::Fault;
use crate::names::Pointable;
use crate::task::Task;
use std::sync::Wait;

/// A value with a tag, or a pointer to one (the source's `Pointer`).
pub trait Pointer<T: Pointable>: Sized {
    ghost use Rattle.std.specs.Prelude.{ℕ, Bool, Option, true, false, ◌≡◌, ◌%◌, MatchResult, IfErr, IfOk, IfSome, IsErr};
    ghost use Rattle.crossbeam_epoch.specs.declared.fault.Fault.{Fault};
    ghost use Rattle.crossbeam_epoch.specs.declared.face.link.Site.{Site};

    ghost tag_bits: { Self → ℕ };

    ghost leads_elsewhere: { Self → ℕ → Bool };

    ghost leads_to: { Self → ℕ → Option Site → Type 0 };

    ghost refused_as: { Fault };

    ghost is_refusable: { Self → ℕ → Bool };

    /// Whether it leads to a cell of another collector than this one.
    fn is_foreign(&self, collector: u64) -> bool
        ensures { result ≡ leads_elsewhere self.now collector };

    /// The pointer that it is, of what has no value to be placed: where it doesn't lead elsewhere, it enters.
    fn as_link(&self) -> Option<Link>
        ensures tag { IfSome result (λ l. l.tag ≡ tag_bits self.now) }
        ensures site { IfSome result (λ l. (id : ℕ) → leads_to self.now id l.site) }
        ensures enters { IfSome result (λ _. (id : ℕ) → leads_elsewhere self.now id ≡ false → is_refusable self.now id ≡ false) }
    {
        None
    }

    /// The tagged pointer that leads to it: a value is placed in a cell of the guard's collector. A pointer is refused as `Foreign`
    /// where it leads elsewhere and nowhere else, a value as `CellsFull`; it comes back.
    fn enter<R: Wait, J: Task>(
        self,
        rt: &R,
        guard: &Guard<'_, T, J>,
    ) -> Result<Tagged<T>, (Fault, Self)>
        ensures tag { MatchResult result (λ w. w.link.tag ≡ tag_bits self % T.ALIGN) (λ e. (e.0 ≡ refused_as) × (is_refusable self guard.now.collector.now.id ≡ true) × (e.1 ≡ self)) }
        ensures site { IfOk result (λ w. leads_to self guard.now.collector.now.id w.link.site) }
        ensures elsewhere { leads_elsewhere self guard.now.collector.now.id ≡ true → IsErr result };
}

impl<T: Pointable + Drop> Pointer<T> for Owned<T> {
    ghost use Rattle.std.specs.Prelude.{true, false, IsSomeAnd};
    ghost use Rattle.crossbeam_epoch.specs.declared.fault.Fault.TheVariants.{CellsFull};

    ghost tag_bits = { λ o. o.tag };

    ghost leads_elsewhere = { λ _ _. false };

    ghost leads_to = { λ _ id site. IsSomeAnd site (λ s. s.collector ≡ id) };

    ghost refused_as = { CellsFull };

    ghost is_refusable = { λ _ _. true };

    fn is_foreign(&self, _collector: u64) -> bool {
        false
    }

    fn enter<R: Wait, J: Task>(
        self,
        rt: &R,
        guard: &Guard<'_, T, J>,
    ) -> Result<Tagged<T>, (Fault, Self)> {
        let (value, tag) = self.into_parts();
        match guard.collector.place(rt, value) {
            Ok(name) => {
                let site = Site {
                    collector: guard.collector.id(),
                    cell: name.cell,
                    turn: name.turn,
                };
                Ok(Tagged::new(Link {
                    site: Some(site),
                    tag,
                }))
            }
            Err(value) => Err((Fault::CellsFull, Owned::with(value, tag))),
        }
    }
}

impl<'s, T: Pointable + Drop> Pointer<T> for Shared<'s, T> {
    ghost use Rattle.crossbeam_epoch.specs.face.Pointer.{is_foreign};
    ghost use Rattle.crossbeam_epoch.specs.declared.fault.Fault.TheVariants.{Foreign};

    ghost tag_bits = { λ s. s.link.tag };

    ghost leads_elsewhere = { λ s id. is_foreign s.link.site id };

    ghost leads_to = { λ s _ site. site ≡ s.link.site };

    ghost refused_as = { Foreign };

    ghost is_refusable = { λ s id. is_foreign s.link.site id };

    fn is_foreign(&self, collector: u64) -> bool {
        match self.link().site {
            Some(site) => site.collector != collector,
            None => false,
        }
    }

    fn as_link(&self) -> Option<Link> {
        Some(self.link())
    }

    fn enter<R: Wait, J: Task>(
        self,
        _rt: &R,
        guard: &Guard<'_, T, J>,
    ) -> Result<Tagged<T>, (Fault, Self)> {
        if self.is_foreign(guard.collector.id()) {
            return Err((Fault::Foreign, self));
        }
        Ok(Tagged::new(self.link()))
    }
}

/// A pointer without a guard's lifetime (own).
impl<T: Pointable + Drop> Pointer<T> for Link {
    ghost use Rattle.crossbeam_epoch.specs.face.Pointer.{is_foreign};
    ghost use Rattle.crossbeam_epoch.specs.declared.fault.Fault.TheVariants.{Foreign};

    ghost tag_bits = { λ l. l.tag };

    ghost leads_elsewhere = { λ l id. is_foreign l.site id };

    ghost leads_to = { λ l _ site. site ≡ l.site };

    ghost refused_as = { Foreign };

    ghost is_refusable = { λ l id. is_foreign l.site id };

    fn is_foreign(&self, collector: u64) -> bool {
        match self.site {
            Some(site) => site.collector != collector,
            None => false,
        }
    }

    fn as_link(&self) -> Option<Link> {
        Some(*self)
    }

    fn enter<R: Wait, J: Task>(
        self,
        _rt: &R,
        guard: &Guard<'_, T, J>,
    ) -> Result<Tagged<T>, (Fault, Self)> {
        let place = guard.collector.id();
        match self.site {
            Some(site) if site.collector != place => Err((Fault::Foreign, self)),
            _ => Ok(Tagged::new(self)),
        }
    }
}

//! What stands for a guard where nothing else uses the collector.

ghost use Rattle.std.specs.Prelude.{◌≡◌, None, MatchResult, IsErrAnd};
ghost use Rattle.crossbeam_epoch.specs.face.Pointer.{name_in};

use crate::face::collector::Collector;
use crate::face::shared::Shared;
use crate::fault::Fault;
use crate::names::Pointable;
use crate::task::Task;
use std::sync::Wait;

/// Puts nothing off (the source's `unprotected`).
#[derive(Clone, Copy, Debug, Drop)]
pub struct Unprotected;

impl Unprotected {
    /// Calls the job at once.
    pub fn defer<R: Wait, J: Task>(&self, _rt: &R, job: J) {
        job.run();
    }

    /// Destroys the value at once. Refused as `Unknown` for null, or as `Foreign` for another collector's pointer, which
    /// comes back.
    pub fn defer_destroy<'s, T: Pointable + Drop, R: Wait, J: Task>(
        &self,
        rt: &R,
        collector: &Collector<T, J>,
        pointer: Shared<'s, T>,
    ) -> Result<(), (Fault, Shared<'s, T>)>
        ensures { MatchResult (name_in pointer.entry.link.site collector.now.id)
            (λ _. result ≡ Ok tt)
            (λ f. IsErrAnd result (λ e. (e.0 ≡ f) × (e.1 ≡ pointer.entry))) }
    {
        match pointer.name_in(collector) {
            Ok(name) => {
                drop(collector.remove(rt, name));
                Ok(())
            }
            Err(fault) => Err((fault, pointer)),
        }
    }

    /// Does nothing.
    pub fn flush<R: Wait>(&self, _rt: &R) {}

    /// Does nothing.
    pub fn repin<R: Wait>(&mut self, _rt: &R) {}

    /// None.
    pub fn collector<T: Drop, J: Task>(&self) -> Option<&Collector<T, J>>
        ensures { result ≡ None }
    {
        None
    }
}

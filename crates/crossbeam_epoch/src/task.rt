//! What is put off.

/// A job of the user's: it is run once, after its deferral is blocked by nobody.
pub trait Task: Drop {
    ghost use Rattle.std.specs.Mem.{FitsInMemory};
    ghost use Rattle.crossbeam_epoch.specs.contracts.world.participant.Participant.{the_row};
    ghost use Rattle.crossbeam_epoch.specs.contracts.bag.Sealed.{the_row as sealed_row};

    /// Runs the job.
    fn run(self);

    ghost fits: { FitsInMemory (the_row Self.row) };

    ghost fits_sealed: { FitsInMemory (sealed_row Self.row) };
}

/// The job that does nothing.
impl Task for () {
    ghost use Rattle.std.proofs.Common.{rules};

    fn run(self) {}

    ghost fits = { Prim.search rules };

    ghost fits_sealed = { Prim.search rules };
}

/// A boxed closure that may be called (the source's `Deferred`).
#[derive(Drop)]
pub struct Job {
    call: Box<dyn FnOnce() + Send>,
    ghost ready: { pre call },
}

impl Job {
    /// The job that calls this closure.
    pub fn new(call: Box<dyn FnOnce() + Send>) -> Job
        requires callable { pre call }
    {
        Job { call }
    }
}

impl Task for Job {
    ghost use Rattle.std.proofs.Common.{rules};

    fn run(self) {
        let Job { call } = self;
        call();
    }

    ghost fits = { Prim.search rules };

    ghost fits_sealed = { Prim.search rules };
}

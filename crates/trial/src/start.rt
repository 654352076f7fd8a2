//! The program by its arguments.
ghost use Rattle.std.specs.Prelude.{◌≡◌, ℕ};
ghost use Rattle.std.specs.Process.{exit_status};
ghost use Rattle.trial.specs.Arguments.{Asks, TellsUsage};
ghost use Rattle.trial.specs.Going.{Ran};
ghost use Rattle.trial.specs.Histories.{Takes, Tells};
ghost use Rattle.trial.specs.Lockfree.{TellsLockfree};
ghost use Rattle.trial.specs.MapReplies.{MapAnswers};
ghost use Rattle.trial.specs.Script.{AreAnswered, status_of};
ghost use Rattle.trial.specs.declared.arguments.Mode.{Mode};
ghost use Rattle.trial.specs.declared.arguments.Mode.TheVariants as mode;
ghost use Rattle.trial.specs.declared.end.End.{End};

use crate::arguments::{self, Mode};
use crate::lockfree::lockfree;
use crate::output::print;
use crate::run::run;
use crate::sessions::sessions;
use crate::threads::threads;
use crate::versions::versions;
use std::alloc::Global;
use std::io::{Read, Write};
use std::process::ExitCode;
use std::sync::Wait;
use std::thread::Threads;

/// What is printed where the arguments ask for nothing that the program does.
const USAGE: &[u8] =
    b"usage: trial [threads N M | lockfree N M | sessions | versions], where 1 <= N <= 16 and 1 <= M <= 10000\n";

/// Takes the usage, and tells the exit status: 2, or 1 where the writer fails.
fn status_of_usage<W: Write>(writer: &mut W) -> u8
    ensures { Takes (TellsUsage result) (W.contents writer.old) (W.contents writer.new) }
{
    match print(writer, USAGE) {
        Ok(()) => 2,
        Err(_) => 1,
    }
}

/// Takes the usage. The process ends with 2, or with 1 where the writer fails.
pub fn usage<W: Write>(writer: &mut W) -> ExitCode
    ensures { Takes (TellsUsage (exit_status result)) (W.contents writer.old) (W.contents writer.new) }
{
    ExitCode::from(status_of_usage(writer))
}

/// Does what the arguments ask for, without the program's name: answers a script, lets threads call on an index of either kind,
/// makes changes of a table of sessions or calls on a store of versions; or prints the usage.
pub fn start<T: Threads + Wait + Sync, R: Read, W: Write>(
    rt: &T,
    alloc: Global,
    arguments: &[String],
    reader: &mut R,
    writer: &mut W,
) -> ExitCode
    ensures script { Asks arguments.now mode.Script → (end : End) × (exit_status result ≡ status_of end)
        × Ran AreAnswered (R.remaining reader.old) (R.remaining reader.new) (W.contents writer.old) (W.contents writer.new) end }
    ensures map { Asks arguments.now mode.Script → (end : End) × (exit_status result ≡ status_of end)
        × Ran MapAnswers (R.remaining reader.old) (R.remaining reader.new) (W.contents writer.old) (W.contents writer.new) end }
    ensures threads { (workers calls : ℕ) → Asks arguments.now (mode.Threads workers calls)
        → Takes (Tells workers calls (exit_status result)) (W.contents writer.old) (W.contents writer.new) }
    ensures lockfree { (workers calls : ℕ) → Asks arguments.now (mode.Lockfree workers calls)
        → Takes (TellsLockfree workers calls (exit_status result)) (W.contents writer.old) (W.contents writer.new) }
    ensures usage { ((asked : Mode) → Asks arguments.now asked → ⊥) → Takes (TellsUsage (exit_status result)) (W.contents writer.old) (W.contents writer.new) }
{
    match arguments::read(arguments) {
        Some(Mode::Script) => ExitCode::from(run(alloc, reader, writer)),
        Some(Mode::Threads { workers, calls }) => {
            ExitCode::from(threads(rt, alloc, workers, calls, writer))
        }
        Some(Mode::Lockfree { workers, calls }) => {
            ExitCode::from(lockfree(rt, alloc, workers, calls, writer))
        }
        Some(Mode::Sessions) => ExitCode::from(sessions(alloc, writer)),
        Some(Mode::Versions) => ExitCode::from(versions(alloc, writer)),
        None => usage(writer),
    }
}

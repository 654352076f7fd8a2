//! What the program's arguments ask for.
ghost use Rattle.std.specs.Prelude.{◌≡◌, ◌^◌, ◌<◌, ◌≤◌, ℕ, IfSome, Some, decimal};
ghost use Rattle.trial.specs.Arguments.{AreNumbers, Asks};
ghost use Rattle.trial.specs.declared.arguments.Mode.{Mode};

use crate::word::number;

/// The most workers that may be asked for.
const WORKERS_MAX: u32 = 16;

/// The most calls of each worker that may be asked for.
const CALLS_MAX: u32 = 10_000;

/// What the program is to do.
#[derive(Clone, Copy, Debug, PartialEq, Eq)]
pub enum Mode {
    /// To answer a script.
    Script,
    /// To let so many workers make so many calls each, at once.
    Threads { workers: u32, calls: u32 },
    /// The same on an index whose readers take no lock.
    Lockfree { workers: u32, calls: u32 },
    /// To make drawn changes of a table of sessions.
    Sessions,
    /// To make drawn calls on a store of versions.
    Versions,
}

/// The number from 1 to the most that the word is the decimal of, or none.
#[tactic(auto, using(std::proofs::lemmas::Fmt::decimal_injective))]
fn number_to(word: &[u8], most: u32) -> Option<u32>
    ensures found { IfSome result (λ n. (word.now ≡ decimal n) × (1 ≤ n) × (n ≤ most)) }
    ensures only { (n : ℕ) → 1 ≤ n → n ≤ most → word.now ≡ decimal n → result ≡ Some n }
{
    match number(word)? {
        n if 1 <= n && n <= most as u64 => Some(n as u32),
        _ => None,
    }
}

/// The numbers of workers and of calls that two words are the decimals of.
fn numbers(workers: &[u8], calls: &[u8]) -> Option<(u32, u32)>
    ensures found { IfSome result (λ found. AreNumbers workers.now calls.now found.0 found.1) }
    ensures only { (n m : ℕ) → AreNumbers workers.now calls.now n m → result ≡ Some (n, m) }
{
    Some((
        number_to(workers, WORKERS_MAX)?,
        number_to(calls, CALLS_MAX)?,
    ))
}

/// What the arguments ask for, without the program's name; none where they ask for nothing that the program does.
pub fn read(arguments: &[String]) -> Option<Mode>
    ensures asked { IfSome result (λ asked. Asks arguments.now asked) }
    ensures only { (asked : Mode) → Asks arguments.now asked → result ≡ Some asked }
{
    match arguments {
        [] => Some(Mode::Script),
        [word] if word.as_str() == "sessions" => Some(Mode::Sessions),
        [word] if word.as_str() == "versions" => Some(Mode::Versions),
        [word, workers, calls] if word.as_str() == "threads" => {
            let (workers, calls) = numbers(workers.as_bytes(), calls.as_bytes())?;
            Some(Mode::Threads { workers, calls })
        }
        [word, workers, calls] if word.as_str() == "lockfree" => {
            let (workers, calls) = numbers(workers.as_bytes(), calls.as_bytes())?;
            Some(Mode::Lockfree { workers, calls })
        }
        _ => None,
    }
}

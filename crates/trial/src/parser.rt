//! From the words of a line to its command.
ghost use Rattle.std.specs.Prelude.{◌≡◌};
ghost use Rattle.trial.specs.Parsing.{plain_call_of, triple_call_of, call_of, worker_command_of};
ghost use Rattle.trial.specs.Parsing.{limit_of, version_of, journal_of, opening_of, plain_command_of, command_of};

use crate::command::{Command, LineCall, Opening};
use crate::keyword::Keyword;
use crate::word::Word::{self, Key, Number};

/// The most pairs that a scan may ask for.
const PAIRS_MAX: u64 = 10_000;

/// The most steps or rounds that a line may ask for.
const COUNT_MAX: u64 = 1_000_000;

/// The call that one word names, or none.
fn plain_call(key: Keyword) -> Option<LineCall>
    ensures { result ≡ plain_call_of key }
{
    match key {
        Keyword::Pin => Some(LineCall::Pin),
        Keyword::Unpin => Some(LineCall::Unpin),
        Keyword::Repin => Some(LineCall::Repin),
        Keyword::Flush => Some(LineCall::Flush),
        Keyword::Release => Some(LineCall::Release),
        Keyword::Keys => Some(LineCall::Keys),
        Keyword::Empty => Some(LineCall::Empty),
        Keyword::Stats => Some(LineCall::Stats),
        _ => None,
    }
}

/// The call that a word and three numbers name, or none.
fn triple_call(key: Keyword, a: u64, b: u64, c: u64) -> Option<LineCall>
    ensures { result ≡ triple_call_of key a b c }
{
    match key {
        Keyword::Cas => Some(LineCall::Exchange(a, b, c)),
        Keyword::Range if c <= PAIRS_MAX => Some(LineCall::Range(a, b, c)),
        Keyword::Through if c <= PAIRS_MAX => Some(LineCall::Through(a, b, c)),
        _ => None,
    }
}

/// The call that the words name, or none.
fn call(words: &[Word]) -> Option<LineCall>
    ensures { result ≡ call_of words.now }
{
    match words {
        [Key(key)] => plain_call(*key),
        [Key(Keyword::Get), Number(k)] => Some(LineCall::Get(*k)),
        [Key(Keyword::Remove), Number(k)] => Some(LineCall::Remove(*k)),
        [Key(Keyword::Insert), Number(k), Number(v)] => Some(LineCall::Insert(*k, *v)),
        [Key(Keyword::OrInsert), Number(k), Number(n)] => Some(LineCall::OrInsert(*k, *n)),
        [Key(key), Number(a), Number(b), Number(c)] => triple_call(*key, *a, *b, *c),
        [
            Key(Keyword::Present),
            Number(k),
            Key(Keyword::Add),
            Number(n),
        ] => Some(LineCall::PresentAdd(*k, *n)),
        [Key(Keyword::Present), Number(k), Key(Keyword::Drop)] => Some(LineCall::PresentDrop(*k)),
        [
            Key(Keyword::Cas),
            Number(k),
            Number(old),
            Key(Keyword::Drop),
        ] => Some(LineCall::ExchangeDrop(*k, *old)),
        _ => None,
    }
}

/// The command that the words after a worker's number name, or none.
fn worker_command(worker: u32, words: &[Word]) -> Option<Command>
    ensures { result ≡ worker_command_of worker words.now }
{
    match words {
        [Key(Keyword::Begin), words @ ..] => Some(Command::Begin(worker, call(words)?)),
        [Key(Keyword::Go), Number(n)] if 1 <= *n && *n <= COUNT_MAX => Some(Command::Go(
            worker, *n,
        )),
        [Key(Keyword::Round), Number(n)] if 1 <= *n && *n <= COUNT_MAX => {
            Some(Command::Round(worker, *n))
        }
        [Key(Keyword::Fail)] => Some(Command::Fail(worker)),
        words => Some(Command::Call(worker, call(words)?)),
    }
}

/// The limit of bytes, if the words begin with one, and the rest of them.
fn limit(words: &[Word]) -> (Option<u64>, &[Word])
    ensures { (result.0, result.1.now) ≡ limit_of words.now }
{
    match words {
        [Key(Keyword::Limit), Number(n), rest @ ..] => (Some(*n), rest),
        _ => (None, words),
    }
}

/// The greatest version, if the words begin with one, and the rest of them.
fn version(words: &[Word]) -> (Option<u64>, &[Word])
    ensures { (result.0, result.1.now) ≡ version_of words.now }
{
    match words {
        [Key(Keyword::Version), Number(n), rest @ ..] => (Some(*n), rest),
        _ => (None, words),
    }
}

/// The places of the journal, if the words begin with them, and the rest of them.
fn journal(words: &[Word]) -> (Option<u64>, &[Word])
    ensures { (result.0, result.1.now) ≡ journal_of words.now }
{
    match words {
        [Key(Keyword::Journal), Number(n), rest @ ..] => (Some(*n), rest),
        _ => (None, words),
    }
}

/// The command that opens a tree with these options, or none where further words stand behind them.
#[tactic(auto, unfolding(crate::specs::Parsing::opening_of))]
fn opening(participants: u64, cells: u64, words: &[Word]) -> Option<Command>
    ensures { result ≡ opening_of participants cells words.now }
{
    let (limit, words) = limit(words);
    let (version, words) = version(words);
    let (journal, words) = journal(words);
    if !words.is_empty() {
        return None;
    }
    Some(Command::New(Opening {
        participants,
        cells,
        limit,
        version,
        journal,
    }))
}

/// The command without a worker that one word names, or none.
fn plain_command(key: Keyword) -> Option<Command>
    ensures { result ≡ plain_command_of key }
{
    match key {
        Keyword::Reg => Some(Command::Register),
        Keyword::Charged => Some(Command::Charged),
        Keyword::Waiting => Some(Command::Waiting),
        Keyword::Journal => Some(Command::Journal),
        Keyword::Close => Some(Command::Close),
        _ => None,
    }
}

/// The command that the words name, or none.
pub fn command(words: &[Word]) -> Option<Command>
    ensures { result ≡ command_of words.now }
{
    match words {
        [Key(key)] => plain_command(*key),
        [Key(Keyword::New), Number(p), Number(c), options @ ..] => opening(*p, *c, options),
        [Number(w), words @ ..] => worker_command(u32::try_from(*w).ok()?, words),
        _ => None,
    }
}

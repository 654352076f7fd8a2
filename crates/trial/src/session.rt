//! The tree of a script, and what its commands do to it.
ghost use Rattle.std.specs.Prelude.{◌≡◌, ℕ, IfOk, IfErr, [], None};
ghost use Rattle.joint.specs.declared.steps.Outcome.{Outcome};
ghost use Rattle.trial.specs.Calling.{Registers};
ghost use Rattle.trial.specs.Replies.{reply_of};
ghost use Rattle.trial.specs.Session.{Answers, Replies, CallReplies, BeginReplies, GoReplies, FailReplies, JournalReplies, Rounds, Round, AfterPin, Unwinds, Opens, OpensWith};
ghost use Rattle.trial.specs.Session.{op_of, closure_of, refusal_of, limits_of, budget_of};
ghost use Rattle.trial.specs.declared.command.Command.TheVariants as Command;
ghost use Rattle.trial.specs.declared.end.End.TheVariants as End;

use crate::caller::Closure;
use crate::command::{Command, LineCall, Opening};
use crate::drained::{Closed, Drained};
use crate::end::End;
use crate::keys::Keys;
use crate::open_tree::OpenTree;
use crate::reply::{Refused, Reply};
use congee::{Allocator, Limited};
use joint::{Done, Limits, Op, Outcome, Refusal, World};
use judge::check;
use std::alloc::Global;

/// The call of the tree that a line asks for, and the closure that it gives it, if it gives one.
fn asked(call: LineCall) -> (Op<u64>, Option<Closure>)
    ensures op { result.0 ≡ op_of call }
    ensures closure { result.1 ≡ closure_of call }
{
    match call {
        LineCall::Pin => (Op::Pin, None),
        LineCall::Unpin => (Op::Unpin, None),
        LineCall::Repin => (Op::Repin, None),
        LineCall::Flush => (Op::Flush, None),
        LineCall::Release => (Op::Release, None),
        LineCall::Get(key) => (Op::Get(key), None),
        LineCall::Remove(key) => (Op::Remove(key), None),
        LineCall::Insert(key, value) => (Op::Insert(key, value), None),
        LineCall::PresentAdd(key, n) => (Op::ComputePresent(key), Some(Closure::Add(n))),
        LineCall::PresentDrop(key) => (Op::ComputePresent(key), Some(Closure::Drop)),
        LineCall::OrInsert(key, n) => (Op::ComputeInsert(key), Some(Closure::Put(n))),
        LineCall::Exchange(key, old, new) => (Op::Exchange(key, old, Some(new)), None),
        LineCall::ExchangeDrop(key, old) => (Op::Exchange(key, old, None), None),
        LineCall::Range(start, end, size) => (Op::Range(start, end, size as usize), None),
        LineCall::Through(start, last, size) => (
            Op::RangeInclusive(start, last, size as usize),
            None,
        ),
        LineCall::Keys => (Op::Keys, None),
        LineCall::Empty => (Op::IsEmpty, None),
        LineCall::Stats => (Op::Stats, None),
    }
}

/// Why the tree refused, if it did.
fn refusal(outcome: Outcome<u64>) -> Option<Refusal>
    ensures { result ≡ refusal_of outcome }
{
    match outcome {
        Outcome::Refused(refusal) => Some(refusal),
        _ => None,
    }
}

/// Flushes and unpins; tells the first refusal.
fn unwind(index: &mut OpenTree, worker: u32) -> Result<Option<Refusal>, End>
    ensures ok { IfOk result (λ first. Unwinds index.old worker index.new first) }
    ensures err { IfErr result (λ e. e ≡ End.Memory) }
{
    let flush = index.call(worker, Op::Flush, None)?;
    let unpin = index.call(worker, Op::Unpin, None)?;
    Ok(refusal(flush).or(refusal(unpin)))
}

/// One round of pin, flush and unpin; tells the first refusal. A refused pin ends it.
fn round(index: &mut OpenTree, worker: u32) -> Result<Option<Refusal>, End>
    ensures ok { IfOk result (λ first. Round index.old worker index.new first) }
    ensures err { IfErr result (λ e. e ≡ End.Memory) }
{
    let pin = index.call(worker, Op::Pin, None)?;
    match refusal(pin) {
        Some(refusal) => Ok(Some(refusal)),
        None => unwind(index, worker),
    }
}

/// So many rounds; they stop at the first refusal.
fn rounds(index: &mut OpenTree, worker: u32, count: u64) -> Result<Reply, End>
    ensures ok { IfOk result (λ reply. Rounds count index.old worker index.new reply) }
    ensures err { IfErr result (λ e. e ≡ End.Memory) }
{
    for _i in 0..count {
        if let Some(refusal) = round(index, worker)? {
            return Ok(Reply::Refused(Refused::Tree(refusal)));
        }
    }
    Ok(Reply::Ok)
}

/// The limits of a tree that is opened so, or none where a number is past 32 bits.
fn limits(opening: Opening) -> Option<Limits>
    ensures { result ≡ limits_of opening }
{
    let (Ok(participants), Ok(cells)) = (
        u32::try_from(opening.participants),
        u32::try_from(opening.cells),
    ) else {
        return None;
    };
    let usual = Limits::usual(participants, cells);
    match opening.version {
        Some(version_max) => Some(Limits {
            epoch: usual.epoch,
            version_max,
            id: usual.id,
        }),
        None => Some(usual),
    }
}

/// The most bytes that its nodes may take.
fn budget(opening: Opening) -> u64
    ensures { result ≡ budget_of opening }
{
    match opening.limit {
        Some(limit) => limit,
        None => u64::MAX,
    }
}

/// A tree within these limits, with the journal that the opening names.
fn world(alloc: Global, limits: Limits, opening: Opening) -> Result<World<u64, Limited>, Refusal>
    ensures { Opens limits opening.journal 0 (budget_of opening) result }
{
    let allocator = Limited::new(budget(opening));
    let world = match opening.journal {
        Some(places) => World::new_journaled(alloc, limits, allocator, places)?,
        None => World::new(alloc, limits, allocator)?,
    };
    world.sound();
    Ok(world)
}

/// Opens a tree, or tells why there is none.
fn open(alloc: Global, opening: Opening) -> Result<(Option<OpenTree>, Reply), End>
    ensures ok { IfOk result (λ opened. OpensWith (limits_of opening) opening.journal (budget_of opening) opened.0 opened.1) }
    ensures err { IfErr result (λ e. e ≡ End.Memory) }
{
    let Some(limits) = limits(opening) else {
        return Ok((None, Reply::Refused(Refused::Tree(Refusal::Limits))));
    };
    match world(alloc, limits, opening) {
        Ok(world) => {
            let index = OpenTree::new(alloc, world)?;
            Ok((Some(index), Reply::Ok))
        }
        Err(refusal) => Ok((None, Reply::Refused(Refused::Tree(refusal)))),
    }
}

/// The reply to a command where no tree is open. Kept out of line, as the close is: a whole tree by value takes room that
/// every line would clear.
#[inline(never)]
fn answer_closed(
    alloc: Global,
    session: &mut Option<OpenTree>,
    command: Command,
) -> Result<Reply, End>
    requires { session.old ≡ None }
    ensures ok { IfOk result (λ reply. Answers None command session.new reply) }
    ensures err { IfErr result (λ e. e ≡ End.Memory) }
{
    match command {
        Command::New(opening) => {
            let (index, reply) = open(alloc, opening)?;
            *session = index;
            Ok(reply)
        }
        _ => Ok(Reply::Refused(Refused::NoTree)),
    }
}

/// The reply to a worker's call that stands so. Where it is a scan that is done, its places are taken from it.
fn reply(alloc: Global, index: &mut OpenTree, worker: u32, outcome: Outcome<u64>) -> Reply
    ensures { Replies index.old worker outcome index.new result }
{
    match outcome {
        Outcome::Running => Reply::Running,
        Outcome::Asks(_) => Reply::Running,
        Outcome::Found { .. } => Reply::Running,
        Outcome::Registered(worker) => Reply::Worker(worker),
        Outcome::Refused(refusal) => Reply::Refused(Refused::Tree(refusal)),
        Outcome::Done(Done::Unit) => Reply::Ok,
        Outcome::Done(Done::Reply(told)) => Reply::of_point(told),
        Outcome::Done(Done::Scanned(count)) => {
            Reply::Range(index.take_scan(alloc, worker).first(count))
        }
        Outcome::Done(Done::Keys(keys)) => Reply::Keys(Keys::new(keys)),
        Outcome::Done(Done::Empty(empty)) => Reply::Empty(empty),
        Outcome::Done(Done::Stats(stats)) => Reply::Stats(stats),
    }
}

/// The reply to a whole call.
fn answer_call(
    alloc: Global,
    index: &mut OpenTree,
    worker: u32,
    call: LineCall,
) -> Result<Reply, End>
    ensures ok { IfOk result (λ reply. CallReplies (op_of call) (closure_of call) index.old worker index.new reply) }
    ensures err { IfErr result (λ e. e ≡ End.Memory) }
{
    let (op, closure) = asked(call);
    let outcome = index.call(worker, op, closure)?;
    Ok(reply(alloc, index, worker, outcome))
}

/// The reply to a call of which the first step alone is taken.
fn answer_begin(alloc: Global, index: &mut OpenTree, worker: u32, call: LineCall) -> Reply
    ensures { BeginReplies (op_of call) (closure_of call) index.old worker index.new result }
{
    let (op, closure) = asked(call);
    let outcome = index.begin(worker, op, closure);
    match reply(alloc, index, worker, outcome) {
        Reply::Running => Reply::Begun,
        told => told,
    }
}

/// The reply to further steps of a worker's call in flight.
fn answer_go(alloc: Global, index: &mut OpenTree, worker: u32, most: u64) -> Result<Reply, End>
    ensures ok { IfOk result (λ reply. GoReplies most index.old worker index.new reply) }
    ensures err { IfErr result (λ e. e ≡ End.Memory) }
{
    let outcome = index.go_on(worker, most, Outcome::Running)?;
    Ok(reply(alloc, index, worker, outcome))
}

/// The reply to one whose upgrade fails.
fn answer_fail(alloc: Global, index: &mut OpenTree, worker: u32) -> Result<Reply, End>
    ensures ok { IfOk result (λ reply. FailReplies index.old worker index.new reply) }
    ensures err { IfErr result (λ e. e ≡ End.Memory) }
{
    let outcome = index.go(worker, true)?;
    Ok(reply(alloc, index, worker, outcome))
}

/// The reply to the line that has the journal judged.
fn answer_journal(alloc: Global, index: &OpenTree) -> Reply
    ensures { JournalReplies index.now.world result }
{
    let journal = index.world.journal();
    match check(alloc, journal) {
        Ok(verdict) => Reply::Journal(journal.len(), verdict),
        Err(_) => Reply::Refused(Refused::Tree(Refusal::Memory)),
    }
}

/// The reply to the line that registers a worker.
fn answer_register(index: &mut OpenTree) -> Reply
    ensures { (told : Outcome ℕ) × Registers index.old told index.new × (result ≡ reply_of [] told) }
{
    match index.register() {
        Outcome::Registered(worker) => Reply::Worker(worker),
        Outcome::Refused(refusal) => Reply::Refused(Refused::Tree(refusal)),
        // A registration is one step.
        _ => unreachable!(),
    }
}

/// Closes the tree that is open, if one is, and tells its pairs, in ascending order, and the charge that is left.
#[inline(never)]
fn close(alloc: Global, session: &mut Option<OpenTree>) -> Result<Reply, End>
    ensures ok { IfOk result (λ reply. Answers session.old Command.Close session.new reply) }
    ensures err { IfErr result (λ e. e ≡ End.Memory) }
{
    let Some(index) = session.take() else {
        return Ok(Reply::Refused(Refused::NoTree));
    };
    let OpenTree {
        world,
        callers,
        scans,
    } = index;
    match world.close(Drained::new(alloc)) {
        Ok((allocator, drained)) => Ok(Reply::Closed(Closed {
            pairs: drained.pairs()?,
            charge: allocator.charged(),
        })),
        Err((refusal, world, _)) => {
            *session = Some(OpenTree {
                world,
                callers,
                scans,
            });
            Ok(Reply::Refused(Refused::Tree(refusal)))
        }
    }
}

/// Carries out a command on the tree that is open, if one is, and tells the reply. Without memory for what it is to hold
/// of a scan or of the pairs of a tree that is closed, the script ends.
pub fn answer(alloc: Global, session: &mut Option<OpenTree>, command: Command) -> Result<Reply, End>
    ensures ok { IfOk result (λ reply. Answers session.old command session.new reply) }
    ensures err { IfErr result (λ e. e ≡ End.Memory) }
{
    let Some(index) = session else {
        return answer_closed(alloc, session, command);
    };
    match command {
        Command::New(_) => Ok(Reply::Refused(Refused::Open)),
        Command::Register => Ok(answer_register(index)),
        Command::Charged => Ok(Reply::Charged(index.world.charged())),
        Command::Waiting => Ok(Reply::Waiting(index.world.waiting(), index.world.waiting_bytes())),
        Command::Journal => Ok(answer_journal(alloc, index)),
        Command::Call(worker, call) => answer_call(alloc, index, worker, call),
        Command::Begin(worker, call) => Ok(answer_begin(alloc, index, worker, call)),
        Command::Go(worker, most) => answer_go(alloc, index, worker, most),
        Command::Fail(worker) => answer_fail(alloc, index, worker),
        Command::Round(worker, count) => rounds(index, worker, count),
        Command::Close => close(alloc, session),
    }
}

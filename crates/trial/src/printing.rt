//! What is printed of a line, put piece by piece.
ghost use Rattle.std.specs.Prelude.{◌≡◌, IfErr, OnOk, Some};
ghost use Rattle.std.specs.List.{flat_map};
ghost use Rattle.trial.specs.Output.{Passes, Breaks, PutStops};
ghost use Rattle.trial.specs.Texts.{drained_text, pair_text, pairs_text, printed, spaced, bad_line_text};
ghost use Rattle.trial.specs.declared.reply.Reply.TheVariants as Replies;

use crate::drained::Closed;
use crate::end::End;
use crate::keys::Keys;
use crate::output::Output;
use crate::places::Places;
use crate::reply::Reply;
use std::alloc::Global;
use std::io::Write;

/// Puts a pair that a scan found.
fn put_pair<W: Write>(output: &mut Output, writer: &mut W, key: u64, value: u64) -> Result<(), End>
    ensures ok { OnOk result (Passes (W.contents writer.old) output.old (W.contents writer.new) output.new (pair_text (key, value))) }
    ensures err { IfErr result (λ e. (e ≡ End.Writing) × Breaks (W.contents writer.old) output.old (W.contents writer.new) (pair_text (key, value))) }
{
    output.put(writer, b" ")?;
    output.put_number(writer, key)?;
    output.put(writer, b":")?;
    output.put_number(writer, value)
}

/// Puts each of the pairs.
fn put_pairs<W: Write>(output: &mut Output, writer: &mut W, pairs: &[(u64, u64)]) -> Result<(), End>
    ensures ok { OnOk result (Passes (W.contents writer.old) output.old (W.contents writer.new) output.new (pairs_text pairs.now)) }
    ensures err { IfErr result (λ e. (e ≡ End.Writing) × Breaks (W.contents writer.old) output.old (W.contents writer.new) (pairs_text pairs.now)) }
{
    for &(key, value) in pairs {
        put_pair(output, writer, key, value)?;
    }
    Ok(())
}

/// Puts the reply to a scan, which may be longer than what is held back. Nothing of it takes memory.
fn put_range<W: Write>(output: &mut Output, writer: &mut W, places: &Places) -> Result<(), End>
    ensures ok { OnOk result (Passes (W.contents writer.old) output.old (W.contents writer.new) output.new (printed (Replies.Range places.now))) }
    ensures err { IfErr result (λ e. (e ≡ End.Writing) × Breaks (W.contents writer.old) output.old (W.contents writer.new) (printed (Replies.Range places.now))) }
{
    output.put(writer, b"range ")?;
    output.put_number(writer, places.len() as u64)?;
    put_pairs(output, writer, places.as_slice())?;
    output.put(writer, b"\n")
}

/// Puts a number after a space.
fn put_spaced<W: Write>(output: &mut Output, writer: &mut W, n: u64) -> Result<(), End>
    ensures ok { OnOk result (Passes (W.contents writer.old) output.old (W.contents writer.new) output.new (spaced n)) }
    ensures err { IfErr result (λ e. (e ≡ End.Writing) × Breaks (W.contents writer.old) output.old (W.contents writer.new) (spaced n)) }
{
    output.put(writer, b" ")?;
    output.put_number(writer, n)
}

/// Puts each of the numbers after a space.
fn put_numbers<W: Write>(output: &mut Output, writer: &mut W, numbers: &[u64]) -> Result<(), End>
    ensures ok { OnOk result (Passes (W.contents writer.old) output.old (W.contents writer.new) output.new (flat_map spaced numbers.now)) }
    ensures err { IfErr result (λ e. (e ≡ End.Writing) × Breaks (W.contents writer.old) output.old (W.contents writer.new) (flat_map spaced numbers.now)) }
{
    for &n in numbers {
        put_spaced(output, writer, n)?;
    }
    Ok(())
}

/// Puts the reply with all keys. Nothing of it takes memory.
fn put_keys<W: Write>(output: &mut Output, writer: &mut W, keys: &Keys) -> Result<(), End>
    ensures ok { OnOk result (Passes (W.contents writer.old) output.old (W.contents writer.new) output.new (printed (Replies.Keys keys.now))) }
    ensures err { IfErr result (λ e. (e ≡ End.Writing) × Breaks (W.contents writer.old) output.old (W.contents writer.new) (printed (Replies.Keys keys.now))) }
{
    output.put(writer, b"keys")?;
    put_numbers(output, writer, keys.as_slice())?;
    output.put(writer, b"\n")
}

/// Puts a pair of a tree that was closed, on a line of its own.
fn put_drained<W: Write>(
    output: &mut Output,
    writer: &mut W,
    key: u64,
    value: u64,
) -> Result<(), End>
    ensures ok { OnOk result (Passes (W.contents writer.old) output.old (W.contents writer.new) output.new (drained_text (key, value))) }
    ensures err { IfErr result (λ e. (e ≡ End.Writing) × Breaks (W.contents writer.old) output.old (W.contents writer.new) (drained_text (key, value))) }
{
    output.put(writer, b"drain")?;
    put_spaced(output, writer, key)?;
    put_spaced(output, writer, value)?;
    output.put(writer, b"\n")
}

/// Puts each pair of a tree that was closed.
fn put_all_drained<W: Write>(
    output: &mut Output,
    writer: &mut W,
    pairs: &[(u64, u64)],
) -> Result<(), End>
    ensures ok { OnOk result (Passes (W.contents writer.old) output.old (W.contents writer.new) output.new (flat_map drained_text pairs.now)) }
    ensures err { IfErr result (λ e. (e ≡ End.Writing) × Breaks (W.contents writer.old) output.old (W.contents writer.new) (flat_map drained_text pairs.now)) }
{
    for &(key, value) in pairs {
        put_drained(output, writer, key, value)?;
    }
    Ok(())
}

/// Puts what a tree told that was closed. Nothing of it takes memory.
fn put_closed<W: Write>(output: &mut Output, writer: &mut W, closed: &Closed) -> Result<(), End>
    ensures ok { OnOk result (Passes (W.contents writer.old) output.old (W.contents writer.new) output.new (printed (Replies.Closed closed.now))) }
    ensures err { IfErr result (λ e. (e ≡ End.Writing) × Breaks (W.contents writer.old) output.old (W.contents writer.new) (printed (Replies.Closed closed.now))) }
{
    put_all_drained(output, writer, closed.pairs.as_slice())?;
    output.put(writer, b"closed")?;
    put_spaced(output, writer, closed.charge)?;
    output.put(writer, b"\n")
}

/// Puts the reply that tells a value.
fn put_value<W: Write>(output: &mut Output, writer: &mut W, value: u64) -> Result<(), End>
    ensures ok { OnOk result (Passes (W.contents writer.old) output.old (W.contents writer.new) output.new (printed (Replies.Value (Some value)))) }
    ensures err { IfErr result (λ e. (e ≡ End.Writing) × Breaks (W.contents writer.old) output.old (W.contents writer.new) (printed (Replies.Value (Some value)))) }
{
    output.put(writer, b"some ")?;
    output.put_number(writer, value)?;
    output.put(writer, b"\n")
}

/// Puts a reply. Those that nearly every line has, and those that may be long, take no memory.
pub fn put_reply<W: Write>(
    alloc: Global,
    output: &mut Output,
    writer: &mut W,
    reply: &Reply,
) -> Result<(), End>
    ensures ok { OnOk result (Passes (W.contents writer.old) output.old (W.contents writer.new) output.new (printed reply.now)) }
    ensures err { IfErr result (λ e. PutStops (W.contents writer.old) output.old (W.contents writer.new) output.new (printed reply.now) e) }
{
    let text = match reply {
        Reply::Ok => return output.put(writer, b"ok\n"),
        Reply::Value(None) => return output.put(writer, b"none\n"),
        Reply::Value(Some(value)) => return put_value(output, writer, *value),
        Reply::Range(places) => return put_range(output, writer, places),
        Reply::Keys(keys) => return put_keys(output, writer, keys),
        Reply::Closed(closed) => return put_closed(output, writer, closed),
        // Each of its lines has its line feed.
        Reply::Stats(stats) => format!(in alloc; "{stats}")?,
        reply => format!(in alloc; "{reply}\n")?,
    };
    output.put(writer, text.as_bytes())
}

/// Puts the report of a bad line.
pub fn put_bad_line<W: Write>(
    alloc: Global,
    output: &mut Output,
    writer: &mut W,
    number: u64,
) -> Result<(), End>
    ensures ok { OnOk result (Passes (W.contents writer.old) output.old (W.contents writer.new) output.new (bad_line_text number)) }
    ensures err { IfErr result (λ e. PutStops (W.contents writer.old) output.old (W.contents writer.new) output.new (bad_line_text number) e) }
{
    let text = format!(in alloc; "bad line {number}\n")?;
    output.put(writer, text.as_bytes())
}

//! What is printed, on its way to the writer through a buffer of a fixed room.
ghost use Rattle.std.specs.Prelude.{◌≡◌, ℕ, [], ◌≤◌, ◌++◌, length, take, IfErr, OnOk};
ghost use Rattle.std.specs.Fmt.{decimal};
ghost use Rattle.std.specs.Io.KnownBytes.{Appends};
ghost use Rattle.trial.specs.Output.{Passes, Breaks, held_max};

use crate::end::End;
use arrayvec::ArrayVec;
use itoa::Buffer;
use std::io::Write;
use std::marker::Model;

/// The most bytes that are held back.
const HELD_MAX: usize = 8192;

/// What was put and isn't written yet. Its room is a part of it, so that nothing that is put takes memory.
#[derive(Drop)]
pub struct Output {
    held: ArrayVec<u8, HELD_MAX>,
}

impl Model for Output {
    ghost use Rattle.std.specs.Prelude.{ℕ, List};

    ghost Value = { List ℕ };

    ghost view = { λ o. o.held.items };
}

/// Writes all the bytes, or a front of them. An interrupted write is a failed one.
fn write_all<W: Write>(writer: &mut W, bytes: &[u8]) -> Result<(), End>
    ensures ok { OnOk result (Appends (W.contents writer.old) (W.contents writer.new) bytes.now) }
    ensures err { IfErr result (λ e. (e ≡ End.Writing) × (n : ℕ) × Appends (W.contents writer.old) (W.contents writer.new) (take n bytes.now)) }
{
    let mut written = 0;
    while written < bytes.len() {
        match writer.write(&bytes[written..]) {
            Ok(0) => return Err(End::Writing),
            Ok(n) => written += n,
            Err(_) => return Err(End::Writing),
        }
    }
    Ok(())
}

/// Writes a text, and flushes the writer.
pub fn print<W: Write>(writer: &mut W, text: &[u8]) -> Result<(), End>
    ensures ok { OnOk result (Appends (W.contents writer.old) (W.contents writer.new) text.now) }
    ensures err { IfErr result (λ e. (e ≡ End.Writing) × (n : ℕ) × Appends (W.contents writer.old) (W.contents writer.new) (take n text.now)) }
{
    write_all(writer, text)?;
    match writer.flush() {
        Ok(()) => Ok(()),
        Err(_) => Err(End::Writing),
    }
}

impl Output {
    /// Nothing is held back.
    pub fn new() -> Output
        ensures { result ≡ [] }
    {
        Output {
            held: ArrayVec::new(),
        }
    }

    /// Puts a piece, once what is held back is written out. A piece longer than the buffer is written as well.
    #[tactic(auto, using(crate::proofs::Passing::passes_alone, crate::proofs::Passing::passes_by, crate::proofs::Passing::breaks_before, crate::proofs::Passing::breaks_within))]
    fn put_first<W: Write>(&mut self, writer: &mut W, piece: &[u8]) -> Result<(), End>
        ensures ok { OnOk result (Passes (W.contents writer.old) self.old (W.contents writer.new) self.new piece.now) }
        ensures bound { OnOk result (length self.new ≤ held_max) }
        ensures err { IfErr result (λ e. (e ≡ End.Writing) × Breaks (W.contents writer.old) self.old (W.contents writer.new) piece.now) }
    {
        self.flush(writer)?;
        match self.held.try_extend_from_slice(piece) {
            Ok(()) => Ok(()),
            Err(_) => write_all(writer, piece),
        }
    }

    /// Puts a piece behind what is held back.
    pub fn put<W: Write>(&mut self, writer: &mut W, piece: &[u8]) -> Result<(), End>
        ensures ok { OnOk result (Passes (W.contents writer.old) self.old (W.contents writer.new) self.new piece.now) }
        ensures bound { OnOk result (length self.new ≤ held_max) }
        ensures err { IfErr result (λ e. (e ≡ End.Writing) × Breaks (W.contents writer.old) self.old (W.contents writer.new) piece.now) }
    {
        match self.held.try_extend_from_slice(piece) {
            Ok(()) => Ok(()),
            Err(_) => self.put_first(writer, piece),
        }
    }

    /// Puts a number.
    pub fn put_number<W: Write>(&mut self, writer: &mut W, n: u64) -> Result<(), End>
        ensures ok { OnOk result (Passes (W.contents writer.old) self.old (W.contents writer.new) self.new (decimal n)) }
        ensures err { IfErr result (λ e. (e ≡ End.Writing) × Breaks (W.contents writer.old) self.old (W.contents writer.new) (decimal n)) }
    {
        let mut digits = Buffer::new();
        self.put(writer, digits.format(n).as_bytes())
    }

    /// Writes out what is held back, and flushes the writer.
    pub fn flush<W: Write>(&mut self, writer: &mut W) -> Result<(), End>
        ensures ok { OnOk result (Appends (W.contents writer.old) (W.contents writer.new) self.old) }
        ensures empty { OnOk result (self.new ≡ []) }
        ensures err { IfErr result (λ e. (e ≡ End.Writing) × (n : ℕ) × Appends (W.contents writer.old) (W.contents writer.new) (take n self.old)) }
    {
        write_all(writer, &self.held)?;
        self.held.clear();
        match writer.flush() {
            Ok(()) => Ok(()),
            Err(_) => Err(End::Writing),
        }
    }
}

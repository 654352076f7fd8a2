//! Flushes that fail: each ends the program with 1, and nothing is read or written after it.

use crate::start::start;
use crate::tests::asserts::assert_same;
use std::alloc::Global;
use std::io::{self, ErrorKind, Read, Write};
use std::process::ExitCode;
use std::sync::Wait;
use std::test::Fail;
use std::thread::Threads;

/// Takes what it is given. One of its flushes fails, and it goes on after it.
#[derive(Drop)]
struct Unflushed {
    taken: Vec<u8>,
    /// The flushes before the one that fails.
    before: u64,
}

impl Write for Unflushed {
    fn write(&mut self, buf: &[u8]) -> io::Result<usize> {
        self.taken.extend_from_slice(buf)?;
        Ok(buf.len())
    }

    fn flush(&mut self) -> io::Result<()> {
        let fails = self.before == 0;
        self.before = self.before.wrapping_sub(1);
        if fails {
            return Err(io::Error::from(ErrorKind::Interrupted));
        }
        Ok(())
    }
}

/// Gives a script by its lines.
#[derive(Drop)]
struct Lines<'a> {
    left: &'a [&'static [u8]],
}

impl Read for Lines<'_> {
    fn read(&mut self, buf: &mut [u8]) -> io::Result<usize> {
        let [line, left @ ..] = self.left else {
            return Ok(0);
        };
        let n = buf.len().min(line.len());
        buf[..n].copy_from_slice(&line[..n]);
        self.left = left;
        Ok(n)
    }
}

/// Two workers' calls are in flight when the last line comes.
const SCRIPT: [&[u8]; 7] = [
    b"new 2 9\n",
    b"reg\nreg\n",
    b"0 pin\n1 pin\n",
    b"0 begin insert 1 7\n1 beg",
    b"in get 1\n",
    b"1 go 100\n",
    b"0 go 100",
];

/// What each line's read has answered.
const REPLIES: [&[u8]; 8] = [
    b"ok\n",
    b"worker 0\nworker 1\n",
    b"ok\nok\n",
    b"begun\n",
    b"begun\n",
    b"none\n",
    b"",
    b"none\n",
];

/// How the program ends with these arguments and a script, of which flush the first after so many fails; the lines that it hasn't
/// read, and what it has written.
fn ended<T: Threads + Wait + Sync>(
    rt: &T,
    alloc: Global,
    arguments: &[&str],
    script: &[&'static [u8]],
    before: u64,
) -> Result<(ExitCode, usize, Vec<u8>), Fail> {
    let mut words = Vec::new(alloc);
    for argument in arguments {
        words.push(String::from_str(alloc, *argument)?)?;
    }
    let mut reader = Lines { left: script };
    let mut writer = Unflushed {
        taken: Vec::new(alloc),
        before,
    };
    let ended = start(rt, alloc, &words, &mut reader, &mut writer);
    let Unflushed { taken, before: _ } = writer;
    Ok((ended, reader.left.len(), taken))
}

/// Arguments, and what is written before the first flush.
const TOLD: [(&[&str], &[u8]); 3] = [
    (
        &["threads", "1", "1"],
        b"journal 1 legal\naudit true\nledger 1\n",
    ),
    (
        &["lockfree", "1", "1"],
        b"worker 0 calls 1 refused 0 audit true pairs 1\nall calls 1 refused 0 audit true pairs 1\n",
    ),
    (
        &["threads"],
        b"usage: trial [threads N M | lockfree N M | sessions | versions], where 1 <= N <= 16 and 1 <= M <= 10000\n",
    ),
];

#[test]
fn a_flush_that_fails_ends_the_program(rt: HostRuntime) -> Result<(), Fail> {
    let mut expected = Vec::new(rt.alloc());
    for (before, replies) in REPLIES.iter().enumerate() {
        expected.extend_from_slice(*replies)?;
        let (ended, left, taken) = ended(&rt, rt.alloc(), &[], &SCRIPT, before as u64)?;
        let unread = SCRIPT.len().saturating_sub(before).saturating_sub(1);
        assert_same(
            &rt,
            (before, ended, left, taken.as_slice()),
            (before, ExitCode::from(1), unread, expected.as_slice()),
        );
    }
    for (arguments, text) in TOLD {
        let (ended, _, taken) = ended(&rt, rt.alloc(), arguments, &[], 0)?;
        assert_same(&rt, (ended, taken.as_slice()), (ExitCode::from(1), text));
    }
    Ok(())
}

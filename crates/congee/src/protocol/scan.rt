//! A scan of a tree that others change meanwhile, as a machine that takes one step at a time.
ghost use Rattle.std.specs.Prelude.{◌≡◌, ◌+◌, ◌*◌, ◌-◌, ◌<◌, ◌≤◌, ◌==◌, length, true, cond};
ghost use Rattle.congee.specs.Heap.{Stands, is_taken, version_of};
ghost use Rattle.congee.specs.protocol.Regions.{IsRegion};
ghost use Rattle.congee.specs.declared.protocol.scan.Stage.TheVariants as stage;
ghost use Rattle.congee.specs.protocol.ScanSteps.{whole, is_outside, first_byte, last_byte, pushed, popped, last_of, moved, goes, over, anew, left, entered, filled, begins, new_scan, IsFollowed, IsFollowedIf, ScanStepped, MayFollow, MayScan};

use crate::forms::prefix::MAX_PREFIX_LEN;
use crate::keys::KEY_BYTES;
use crate::protocol::store::{Least, NodeName, Refusal, Region, Seen, Stamp, Store};
use judge::Payload;
use std::mem;

/// A node on a scan's way, and the least of its bytes that the scan has yet to look at: 256 where none is left.
#[derive(Clone, Copy)]
pub struct Rung<C: NodeName> {
    /// The node.
    pub at: Stamp<C>,
    /// The keys below it.
    pub region: Region,
    /// The byte.
    pub from: u16,
}

/// The nodes above the one at hand, from the root down.
#[derive(Drop)]
pub struct Path<C: NodeName> {
    /// The root, where it is taken.
    pub first: Rung<C>,
    /// The node below the root, where there is one.
    pub second: Rung<C>,
    /// The node so many levels below the root: two.
    pub third: Rung<C>,
    /// The node so many levels below the root: three.
    pub fourth: Rung<C>,
    /// The node so many levels below the root: four.
    pub fifth: Rung<C>,
    /// The node so many levels below the root: five.
    pub sixth: Rung<C>,
    /// The node so many levels below the root: six.
    pub seventh: Rung<C>,
    /// The node so many levels below the root: seven.
    pub eighth: Rung<C>,
    /// How many of the places are taken.
    pub len: usize,
}

/// The next step of a scan.
#[derive(Drop)]
pub enum Stage<C: NodeName, P> {
    /// The scan's first step: enters the root, unless it can find nothing.
    New,
    /// Takes the version of the root or of a child.
    Enter { node: C, region: Region },
    /// Reads the node.
    Look { rung: Rung<C> },
    /// Checks the node after the read.
    Check { rung: Rung<C>, found: Least<C, P> },
    /// Answers with every place filled.
    Full,
    /// The call has ended.
    Over,
}

/// What a step of a scan tells.
#[derive(Drop)]
pub enum ScanReport<P> {
    /// The scan goes on.
    Running,
    /// The pair comes to the place.
    Found { place: usize, key: u64, value: P },
    /// The scan has ended, with so many places filled.
    Done { count: usize },
    /// The scan has ended without an answer.
    Refused(Refusal),
}

/// A scan of the keys from `start` to `last`, into so many places at most. One that has no place can have any two numbers
/// for its range.
#[derive(Drop)]
pub struct ScanState<C: NodeName, P> {
    /// The least key.
    pub start: u64,
    /// The greatest key of the range.
    pub last: u64,
    /// How many places there are.
    pub size: usize,
    /// How many of them are filled.
    pub count: usize,
    /// The nodes above the one at hand.
    pub above: Path<C>,
    /// The next step.
    pub stage: Stage<C, P>,
}

impl Region {
    /// The keys below the root.
    pub(crate) fn whole() -> Self
        ensures { result ≡ whole }
    {
        Region { base: 0, depth: 0 }
    }

    /// The keys that begin with a prefix.
    pub fn of(prefix: &[u8]) -> Self
        requires { length prefix.now ≤ MAX_PREFIX_LEN }
        ensures { IsRegion prefix.now result.base result.depth }
    {
        let mut bytes = [0; KEY_BYTES];
        for i in 0..prefix.len() {
            bytes[i] = prefix[i];
        }
        Region {
            base: u64::from_be_bytes(bytes),
            depth: prefix.len(),
        }
    }

    /// How many bits a key has behind the byte after the prefix.
    fn shift(self) -> u32
        requires { self.depth ≤ MAX_PREFIX_LEN }
        ensures { result ≡ 8 * (MAX_PREFIX_LEN - self.depth) }
    {
        8 * (MAX_PREFIX_LEN - self.depth) as u32
    }

    /// Whether no key of the range is among them.
    fn is_outside(self, start: u64, last: u64) -> bool
        requires { self.depth ≤ MAX_PREFIX_LEN }
        ensures { result ≡ is_outside start last self }
    {
        if last < self.base {
            true
        } else if self.base < start {
            (start - self.base) >> self.shift() > 255
        } else {
            false
        }
    }

    /// The least byte that a key of the range has after the prefix.
    fn first_byte(self, start: u64) -> u8
        requires { self.depth ≤ MAX_PREFIX_LEN }
        ensures { result ≡ first_byte start self }
    {
        if self.base < start {
            ((start - self.base) >> self.shift()).min(255) as u8
        } else {
            0
        }
    }

    /// The greatest one.
    fn last_byte(self, last: u64) -> u8
        requires depth { self.depth ≤ MAX_PREFIX_LEN }
        requires within { self.base ≤ last }
        ensures { result ≡ last_byte last self }
    {
        ((last - self.base) >> self.shift()).min(255) as u8
    }
}

impl<C: NodeName> Path<C> {
    /// Puts a rung at the end. Fewer than eight are there, so the last arm is the eighth place.
    fn push(&mut self, rung: Rung<C>)
        requires { self.old.len < KEY_BYTES }
        ensures { self.new ≡ pushed self.old rung }
    {
        match self.len {
            0 => self.first = rung,
            1 => self.second = rung,
            2 => self.third = rung,
            3 => self.fourth = rung,
            4 => self.fifth = rung,
            5 => self.sixth = rung,
            6 => self.seventh = rung,
            _ => self.eighth = rung,
        }
        self.len += 1;
    }

    /// The last rung. At most eight are there, so the last arm is the eighth.
    fn last(&self) -> Option<Rung<C>>
        requires { self.now.len ≤ KEY_BYTES }
        ensures { result ≡ last_of self.now }
    {
        match self.len {
            0 => None,
            1 => Some(self.first),
            2 => Some(self.second),
            3 => Some(self.third),
            4 => Some(self.fourth),
            5 => Some(self.fifth),
            6 => Some(self.sixth),
            7 => Some(self.seventh),
            _ => Some(self.eighth),
        }
    }
}

impl<C: NodeName> Rung<C> {
    /// The same node, with the bytes up to this one behind.
    fn moved(self, byte: u8) -> Self
        ensures { result ≡ moved self byte }
    {
        Rung {
            from: byte as u16 + 1,
            ..self
        }
    }
}

impl<C: NodeName, P> ScanState<C, P> {
    /// A scan before its begin.
    pub(crate) fn new(root: C, start: u64, last: u64, size: usize) -> Self
        ensures { result ≡ new_scan root start last size }
    {
        let first = Rung {
            at: Stamp {
                node: root,
                version: 0,
            },
            region: Region::whole(),
            from: 0,
        };
        ScanState {
            start,
            last,
            size,
            count: 0,
            above: Path {
                first,
                second: first,
                third: first,
                fourth: first,
                fifth: first,
                sixth: first,
                seventh: first,
                eighth: first,
                len: 0,
            },
            stage: Stage::New,
        }
    }
}

impl<C: NodeName, P: Payload> ScanState<C, P> {
    /// The next step, which changes the scan where it lies.
    pub(crate) fn step<S: Store<C, P>>(
        &mut self,
        store: &S,
        root: C,
        seen: &mut Option<Seen<C, P>>,
    ) -> ScanReport<P>
        requires { MayScan C.number root self.old (S.heap store.now) }
        ensures { ScanStepped C.number P.always_copies root self.old (S.heap store.now) self.new result }
    {
        match &mut self.stage {
            Stage::New => self.begin(store, root),
            Stage::Enter { node, region } => {
                let (node, region) = (*node, *region);
                self.enter(root, node, region, store.version(node))
            }
            Stage::Look { rung } => {
                let rung = *rung;
                let last = rung.region.last_byte(self.last);
                let found = store.least(rung.at, rung.from, last, seen.take());
                self.go(Stage::Check { rung, found })
            }
            Stage::Check { rung, found } => {
                let rung = *rung;
                let found = mem::replace(found, Least::Nothing);
                self.check(store, root, rung, found)
            }
            Stage::Full => {
                let count = self.count;
                self.stop(ScanReport::Done { count })
            }
            Stage::Over => ScanReport::Running,
        }
    }

    /// Goes on with this step.
    fn go(&mut self, stage: Stage<C, P>) -> ScanReport<P>
        ensures { (self.new, result) ≡ goes self.old self.old.above stage }
    {
        drop(mem::replace(&mut self.stage, stage));
        ScanReport::Running
    }

    /// Where a pair was found: every place is filled, or this node is looked at.
    fn next_place(&self, rung: Rung<C>) -> Stage<C, P>
        ensures { result ≡ cond (self.now.count == self.now.size) stage.Full (stage.Look rung) }
    {
        if self.count == self.size {
            Stage::Full
        } else {
            Stage::Look { rung }
        }
    }

    /// Ends so.
    fn stop(&mut self, told: ScanReport<P>) -> ScanReport<P>
        ensures { (self.new, result) ≡ over self.old told }
    {
        drop(mem::replace(&mut self.stage, Stage::Over));
        told
    }

    /// Begins anew at the root.
    fn again(&mut self, root: C) -> ScanReport<P>
        ensures { (self.new, result) ≡ anew root self.old }
    {
        self.count = 0;
        self.above.len = 0;
        self.go(Stage::Enter {
            node: root,
            region: Region::whole(),
        })
    }

    /// Enters the root. Where there is no place, the scan is over.
    fn begin<S: Store<C, P>>(&mut self, store: &S, root: C) -> ScanReport<P>
        requires { Stands (S.heap store.now (C.number root)) }
        ensures { (self.new, result) ≡ begins root self.old (version_of (S.heap store.now (C.number root))) }
    {
        if self.size == 0 {
            self.stop(ScanReport::Done { count: 0 })
        } else {
            drop(self.again(root));
            self.enter(root, root, Region::whole(), store.version(root))
        }
    }

    /// Leaves the node at hand.
    fn leave(&mut self) -> ScanReport<P>
        requires { self.old.above.len ≤ KEY_BYTES }
        ensures { (self.new, result) ≡ left self.old }
    {
        match self.above.last() {
            None => {
                let count = self.count;
                self.stop(ScanReport::Done { count })
            }
            Some(rung) => {
                self.above.len -= 1;
                self.go(Stage::Look { rung })
            }
        }
    }

    /// Looks at a node that has this version, or leaves it where no key below it is in the range. One that is locked or
    /// was taken out has none, and the scan begins anew.
    fn enter(&mut self, root: C, node: C, region: Region, version: Option<u64>) -> ScanReport<P>
        requires depth { region.depth ≤ MAX_PREFIX_LEN }
        requires fits { self.old.above.len ≤ KEY_BYTES }
        ensures { (self.new, result) ≡ entered root self.old node region version }
    {
        match version {
            None => self.again(root),
            Some(version) => {
                if region.is_outside(self.start, self.last) {
                    self.leave()
                } else {
                    let from = region.first_byte(self.start) as u16;
                    let at = Stamp { node, version };
                    self.go(Stage::Look {
                        rung: Rung { at, region, from },
                    })
                }
            }
        }
    }

    /// Checks the node that was read. What a changed node gave is dropped, and the scan begins anew.
    fn check<S: Store<C, P>>(
        &mut self,
        store: &S,
        root: C,
        rung: Rung<C>,
        found: Least<C, P>,
    ) -> ScanReport<P>
        requires stands { Stands (S.heap store.now (C.number rung.at.node)) }
        requires fits { self.old.above.len < KEY_BYTES }
        requires room { self.old.count < self.old.size }
        requires may { is_taken (S.heap store.now (C.number rung.at.node)) rung.at.version ≡ true → MayFollow C.number (S.heap store.now) rung found }
        ensures { IsFollowedIf (is_taken (S.heap store.now (C.number rung.at.node)) rung.at.version) C.number (S.heap store.now) root self.old rung found (self.new, result) }
    {
        if store.check(rung.at) {
            self.follow(store, rung, found)
        } else {
            drop(found);
            self.again(root)
        }
    }

    /// The check after the read succeeded.
    fn follow<S: Store<C, P>>(
        &mut self,
        store: &S,
        rung: Rung<C>,
        found: Least<C, P>,
    ) -> ScanReport<P>
        requires fits { self.old.above.len < KEY_BYTES }
        requires room { self.old.count < self.old.size }
        requires may { MayFollow C.number (S.heap store.now) rung found }
        ensures { IsFollowed C.number (S.heap store.now) self.old rung found (self.new, result) }
    {
        match found {
            Least::Nothing => self.leave(),
            Least::Node { byte, node } => {
                let region = store.region(node);
                self.above.push(rung.moved(byte));
                self.go(Stage::Enter { node, region })
            }
            Least::Value { byte, value } => {
                let place = self.count;
                let key = rung.region.base + byte as u64;
                self.count += 1;
                let next = self.next_place(rung.moved(byte));
                drop(mem::replace(&mut self.stage, next));
                ScanReport::Found { place, key, value }
            }
            Least::Uncopied => self.stop(ScanReport::Refused(Refusal::Count)),
        }
    }
}

//! A link in memory that answers by scripts: it tells all that a link means.
ghost use Rattle.std.specs.Prelude.{◌≡◌, ◌<◌, ◌≤◌, ◌+◌, min, IsTrue, length, take, vec_len, vec_capacity, ◌++◌, Some};
ghost use Rattle.relay_links.specs.Count.{last_count};
ghost use Rattle.relay_links.specs.ReadScript.{IsAtEnd, script_left, script_faults};
ghost use Rattle.relay_links.specs.WriteScript as write_specs;
ghost use Rattle.relay_links.specs.Link.{Reads, Writes, IsHandedOut};

use crate::link::{ByteLink, Got, Put};
use crate::read_script::{ReadItem, ReadScript};
use crate::write_script::{WriteItem, WriteScript, WriteTurn};
use std::alloc::Global;

/// Where a link's scripts and counts stood when it was handed out.
#[derive(Clone, Copy, Debug, PartialEq, Eq)]
pub struct ScriptStart {
    pub read_at: usize,
    pub read_done: usize,
    pub write_at: usize,
    pub taken: usize,
    pub waits: u64,
    pub used: u64,
    pub faults: u64,
    pub reused: bool,
}

/// A link that gives the bytes of its items and takes as they say. What it gave is not stored: the
/// items tell it.
#[derive(Drop)]
pub struct ScriptLink {
    reads: ReadScript,
    writes: WriteScript,
    taken: Vec<u8>,
    waits: u64,
    used: u64,
    faults: u64,
    start: ScriptStart,
    ghost at_end: { IsTrue reads.ended → IsAtEnd (script_left reads) },
    ghost counted: { faults ≡ min (length (script_faults reads) + length (write_specs.script_faults writes)) last_count },
}

impl ScriptLink {
    ghost use Rattle.relay_links.specs.ScriptLink.{script_state, script_start, IsFresh, KeepsScripts};

    /// A link that has answered nothing, with these items.
    pub fn new(alloc: Global, read: Vec<ReadItem>, write: Vec<WriteItem>) -> ScriptLink
        ensures { IsFresh result read.items write.items }
    {
        ScriptLink {
            reads: ReadScript::new(read),
            writes: WriteScript::new(write),
            taken: Vec::new(alloc),
            waits: 0,
            used: 0,
            faults: 0,
            start: ScriptStart {
                read_at: 0,
                read_done: 0,
                write_at: 0,
                taken: 0,
                waits: 0,
                used: 0,
                faults: 0,
                reused: false,
            },
        }
    }

    /// Notes where the link stands as it is handed out, and whether it had been used before.
    pub fn hand_out(&mut self, reused: bool)
        ensures same { script_state self.new ≡ script_state self.old }
        ensures scripts { KeepsScripts self.old self.new }
        ensures start { IsHandedOut (script_state self.new) (script_start self.new) reused }
    {
        let (waits, used, faults) = (self.waits, self.used, self.faults);
        self.start = ScriptStart {
            read_at: self.reads.at,
            read_done: self.reads.done,
            write_at: self.writes.at,
            taken: self.taken.len(),
            waits,
            used,
            faults,
            reused,
        };
    }

    /// The bytes that the link took, in order.
    pub fn taken(&self) -> &[u8]
        ensures { (script_state self.now).taken ≡ Some result.now }
    {
        self.taken.as_slice()
    }

    /// How many bytes it had taken when it was handed out.
    pub fn start_taken(&self) -> usize
        ensures { result ≡ (script_start self.now).taken }
    {
        self.start.taken
    }
}

impl ByteLink for ScriptLink {
    ghost use Rattle.relay_links.specs.ScriptLink.{script_state, script_start, FollowsReads, FollowsWrites};

    ghost state = { script_state };

    ghost start = { script_start };

    fn read(&mut self, room: &mut [u8]) -> Got
        requires { 0 < length room.old }
        ensures answer { Reads (script_state self.old) room.new (script_state self.new) result }
        ensures start { script_start self.new ≡ script_start self.old }
        ensures script { FollowsReads self.old (length room.old) self.new result }
    {
        let (waits, used, faults) = (self.waits, self.used, self.faults);
        match self.reads.read(self.taken.len(), room) {
            Got::Bytes(count) => {
                self.used = used.saturating_add(1);
                Got::Bytes(count)
            }
            Got::NotReady => {
                self.used = used.saturating_add(1);
                self.waits = waits.saturating_add(1);
                Got::NotReady
            }
            Got::Silent => Got::Silent,
            Got::End => {
                self.used = used.saturating_add(1);
                Got::End
            }
            Got::Failed(fault) => {
                self.used = used.saturating_add(1);
                self.faults = faults.saturating_add(1);
                Got::Failed(fault)
            }
        }
    }

    fn write(&mut self, part: &[u8]) -> Put
        requires { 0 < length part.now }
        ensures answer { Writes (script_state self.old) part.now (script_state self.new) result }
        ensures start { script_start self.new ≡ script_start self.old }
        ensures script { FollowsWrites self.old (length part.now) self.new result }
    {
        let (waits, used, faults) = (self.waits, self.used, self.faults);
        self.used = used.saturating_add(1);
        if self.taken.reserve(part.len()).is_err() {
            return Put::OutOfMemory;
        }
        match self.writes.turn() {
            WriteTurn::Takes(limit) => {
                let count = part.len().min(limit as usize);
                append(&mut self.taken, part, count);
                Put::Took(count)
            }
            WriteTurn::TakesAll => {
                append(&mut self.taken, part, part.len());
                Put::Took(part.len())
            }
            WriteTurn::Waits => {
                self.waits = waits.saturating_add(1);
                Put::NotReady
            }
            WriteTurn::Fails(fault) => {
                self.faults = faults.saturating_add(1);
                Put::Failed(fault)
            }
        }
    }

    fn faults(&self) -> u64 {
        self.faults
    }

    fn used(&self) -> u64 {
        self.used
    }
}

/// Puts the first bytes of the part behind those taken before; there is room for the whole part.
fn append(taken: &mut Vec<u8>, part: &[u8], count: usize)
    requires within { count ≤ length part.now }
    requires roomy { vec_len taken.old + length part.now ≤ vec_capacity taken.old }
    ensures { taken.new.items ≡ taken.old.items ++ take count part.now }
{
    match taken.extend_from_slice(&part[..count]) {
        Ok(()) => {}
        Err(_) => unreachable!(),
    }
}

//! The log of a request: which hooks were called, in order.
//!
//! What the calls were given and what they left exists in proofs alone, where a contract sees it
//! whole: the log holds none of a request's heads and bodies in memory. What is kept is a line for
//! each call, up to `MOST_LINES`, and each delay that was asked for.
ghost use Rattle.std.specs.Prelude.{◌≡◌, ◌++◌, ◌∷◌, ◌==◌, ◌<◌, ◌≤◌, [], length, take, vec_len, vec_capacity, IsSome, OnOk, OnErr, IsOkUnless};
ghost use Rattle.relay_tasks.specs.Log.{delays_of, line_of, lines_of, list_of, most_lines};

use crate::error::{Fail, Result};
use crate::log::LogEntry;
use crate::log_line::{LogLine, line_of};
use std::alloc::Global;
use std::marker::Model;
use std::snapshot::Snapshot;

/// How many lines a log keeps: those of the first calls.
pub const MOST_LINES: usize = 65_536;

/// How many lines a log makes room for with the first: those of a small exchange.
const FIRST_LINES: usize = 16;

/// How many calls a log makes room for with the first. They take no bytes, so this is once for all.
const FIRST_CALLS: usize = 1 << 48;

/// The calls of a request in order. A contract sees the list of their entries.
#[derive(Drop)]
pub struct PhaseLog {
    calls: Vec<Snapshot<LogEntry>>,
    lines: Vec<LogLine>,
    delays: Vec<u64>,
}

impl Model for PhaseLog {
    ghost use Rattle.std.specs.Prelude.{◌≡◌, List, map};
    ghost use Rattle.relay_tasks.specs.Log.{delays_of, lines_of};
    ghost use Rattle.relay_tasks.specs.declared.log.LogEntry.{LogEntry};

    ghost Value = { List LogEntry };

    ghost view = { λ l. map (λ call. call.value) l.calls.items };

    ghost invariant = { λ l. (l.lines.items ≡ lines_of (map (λ call. call.value) l.calls.items))
        × (l.delays.items ≡ delays_of (map (λ call. call.value) l.calls.items)) };
}

impl PhaseLog {
    /// An empty log, which has taken no memory.
    pub fn new(alloc: Global) -> PhaseLog
        ensures { result ≡ [] }
    {
        PhaseLog {
            calls: Vec::new(alloc),
            lines: Vec::new(alloc),
            delays: Vec::new(alloc),
        }
    }

    /// Adds the entry at the end. Without memory the log stays as it was.
    #[inline(always)]
    pub fn push(&mut self, entry: LogEntry) -> Result<()>
        ensures ok { OnOk result (self.new ≡ self.old ++ entry ∷ []) }
        ensures memory { IsOkUnless result Fail.OutOfMemory }
        ensures err { OnErr result (self.new ≡ self.old) }
    {
        make_room(&mut self.calls, FIRST_CALLS)?;
        make_delay_room(&mut self.delays, entry.delay)?;
        keep_line(&mut self.lines, &entry)?;
        keep_delay(&mut self.delays, entry.delay);
        self.calls.push_reserved(Snapshot::of(&entry));
        Ok(())
    }

    /// How many calls there are.
    pub fn len(&self) -> usize
        ensures { result ≡ length self.now }
    {
        self.calls.len()
    }

    /// Whether there is no call.
    pub fn is_empty(&self) -> bool
        ensures { result ≡ (length self.now == 0) }
    {
        self.calls.is_empty()
    }

    /// The calls in order, a line for each, up to `MOST_LINES`.
    pub fn lines(&self) -> &[LogLine]
        ensures { result.now ≡ lines_of self.now }
    {
        &self.lines
    }

    /// The delays in milliseconds that calls asked for, in order. Most calls ask for none.
    pub fn delays(&self) -> &[u64]
        ensures { result.now ≡ delays_of self.now }
    {
        &self.delays
    }
}

/// The line of that call is kept where one more may be. Without memory the lines stay as they were.
fn keep_line(lines: &mut Vec<LogLine>, entry: &LogEntry) -> Result<()>
    requires { length lines.old.items ≤ most_lines }
    ensures ok { OnOk result (lines.new.items
        ≡ take most_lines (lines.old.items ++ line_of entry.now ∷ [])) }
    ensures memory { IsOkUnless result Fail.OutOfMemory }
    ensures err { OnErr result (lines.new.items ≡ lines.old.items) }
{
    if lines.len() < MOST_LINES {
        make_room(lines, FIRST_LINES)?;
        lines.push_reserved(line_of(entry));
    }
    Ok(())
}

/// Room for a call's delay, where it asked for one.
fn make_delay_room(delays: &mut Vec<u64>, delay: Option<u64>) -> Result<()>
    ensures ok { OnOk result (IsSome delay → vec_len delays.new < vec_capacity delays.new) }
    ensures memory { IsOkUnless result Fail.OutOfMemory }
    ensures same { delays.new.items ≡ delays.old.items }
{
    match delay {
        Some(_) => make_room(delays, 1),
        None => Ok(()),
    }
}

/// The delay of a call is kept, where it asked for one.
fn keep_delay(delays: &mut Vec<u64>, delay: Option<u64>)
    requires { IsSome delay → vec_len delays.old < vec_capacity delays.old }
    ensures { delays.new.items ≡ delays.old.items ++ list_of delay }
{
    match delay {
        Some(delay) => delays.push_reserved(delay),
        None => {}
    }
}

/// Room for one more, and for that many with the first.
#[inline(always)]
fn make_room<T>(items: &mut Vec<T>, first: usize) -> Result<()>
    requires { 0 < first }
    ensures ok { OnOk result (vec_len items.new < vec_capacity items.new) }
    ensures memory { IsOkUnless result Fail.OutOfMemory }
    ensures same { items.new.items ≡ items.old.items }
{
    if items.len() == items.capacity() {
        items.reserve(if items.is_empty() { first } else { 1 })?;
    }
    Ok(())
}

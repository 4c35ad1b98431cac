//! A client of these tests.
ghost use Rattle.std.specs.Prelude.{◌≡◌, ◌++◌, ◌==◌, ◌&&◌, [], false, true, not, length, None, Some, OnOk, OnErr, IsTrue};
ghost use Rattle.std.specs.List.{flat_map, list_any};
ghost use Rattle.relay_links.specs.Count.{last_count};
ghost use Rattle.relay_links.specs.MuteLink.{mute_state, mute_start};
ghost use Rattle.relay_core.specs.Piece.{put_of};
ghost use Rattle.relay_core.specs.Pipe.{is_failure};

use super::support::{NOTHING_TOLD, push, tell};
use bytes::Bytes;
use relay_core::{Down, Piece, Told};
use relay_links::{Put, UpKind};
use relay_tasks::{Error, Fail, HttpTask, Pause, Result, TaskList, Took};
use std::alloc::Global;

/// A client that gives pieces with these bytes, the last first, and then ends or breaks off. It
/// takes each batch, but no failure.
#[derive(Drop)]
pub(super) struct Client {
    pieces: Vec<&'static str>,
    breaks_off: Option<Error>,
    pub(super) put: TaskList,
    batches: Vec<TaskList>,
    closing: TaskList,
    ended: bool,
    finished: bool,
    pending: bool,
    told: Told,
}

/// A piece with these bytes, which is the last or not.
fn piece(bytes: &'static str, end: bool) -> Piece
    ensures { result ≡ record { bytes = Some bytes.now; upstream_end = end; client_end = end } }
{
    Piece {
        bytes: Some(Bytes::from_static(bytes.as_bytes())),
        upstream_end: end,
        client_end: end,
    }
}

/// The next bytes, or the end, also where there are none in a piece.
fn next_bytes(pieces: &mut Vec<&'static str>) -> (&'static str, bool)
    ensures { ((length result.0.now == 0) && not result.1) ≡ false }
{
    match pieces.pop() {
        Some(bytes) => (bytes, bytes.is_empty()),
        None => ("", true),
    }
}

/// Notes what the piece puts.
fn note(put: &mut TaskList, piece: Piece) -> Result<()>
    ensures ok { OnOk result (put.new ≡ put.old ++ put_of false piece) }
    ensures err { OnErr result (put.new ≡ put.old) }
{
    match piece.into_task(false) {
        Some(task) => put.push(task),
        None => Ok(()),
    }
}

/// Whether the task says that the upstream failed.
fn is_failure(task: &HttpTask) -> bool
    ensures { result ≡ is_failure task.now }
{
    match task {
        HttpTask::Header(_, _) => false,
        HttpTask::Body(_, _) => false,
        HttpTask::UpgradedBody(_, _) => false,
        HttpTask::Trailer(_) => false,
        HttpTask::Done => false,
        HttpTask::Failed(_) => true,
    }
}

/// Whether one of the tasks is a failure.
fn has_failure(tasks: &TaskList) -> bool
    ensures { result ≡ list_any is_failure tasks.now }
{
    for at in 0..tasks.len() {
        if let Some(task) = tasks.get(at) {
            if is_failure(task) {
                return true;
            }
        }
    }
    false
}

/// Keeps the tasks behind the others, unless one is a failure.
fn keep(batches: &mut Vec<TaskList>, tasks: TaskList) -> bool
    ensures kept { IsTrue result → flat_map (λ batch. batch) batches.new.items
        ≡ flat_map (λ batch. batch) batches.old.items ++ tasks }
    ensures plain { IsTrue result → list_any is_failure tasks ≡ false }
    ensures same { result ≡ false → flat_map (λ batch. batch) batches.new.items
        ≡ flat_map (λ batch. batch) batches.old.items ++ [] }
{
    if has_failure(&tasks) {
        return false;
    }
    batches.push(tasks).is_ok()
}

impl Down<()> for Client {
    ghost state = { λ c. record {
      request_ended = c.ended;
      body_done = c.ended;
      awaits_upgrade = false;
      upgraded = false;
      response_done = false;
      body_finished = c.finished;
      pending = c.pending;
      told = c.told;
      calls = 0;
    } };

    ghost past = { λ c client s p. (p.put ≡ c.put)
        × (p.batched ≡ flat_map (λ batch. batch) c.batches.items) × (p.closing ≡ c.closing) };

    ghost blames = { λ c client s p e. c.told.last ≡ Some e };

    ghost refuses = { λ c client s p tasks e. ⊥ };

    ghost cannot_end = { λ c client s p e. c.told.last ≡ Some e };

    // Its count of uses stands at its last value.
    ghost link = { λ _. record (mute_state (record {
      ended = false;
      used = last_count;
      reused = false;
    })) {
      silent_on_read = true;
      silent_on_write = true;
    } };

    ghost start = { λ _. mute_start (record { ended = false; used = 0; reused = false }) };

    ghost lasts = { λ _ _. Unit {0} };

    fn may_read(&self) -> bool {
        !(self.ended && self.finished)
    }

    fn body_done(&self) -> bool {
        self.ended
    }

    fn upgraded(&self) -> bool {
        false
    }

    fn read_piece(&mut self, _client: &mut (), _idle: bool) -> Took<Piece> {
        if self.ended {
            self.told = self.told.paused(Pause::Silent);
            return Took::Waited(Pause::Silent);
        }
        if let (true, Some(error)) = (self.pieces.is_empty(), self.breaks_off) {
            self.told = tell(self.told, error);
            return Took::Failed(Fail::Error(error));
        }
        let (bytes, end) = next_bytes(&mut self.pieces);
        match note(&mut self.put, piece(bytes, end)) {
            Ok(()) => {
                self.ended = end;
                Took::Item(piece(bytes, end))
            }
            Err(_) => Took::Failed(Fail::OutOfMemory),
        }
    }

    fn take_batch(&mut self, tasks: TaskList, _kind: UpKind) -> Result<bool> {
        if keep(&mut self.batches, tasks) {
            self.pending = true;
            return Ok(false);
        }
        Err(Fail::OutOfMemory)
    }

    fn has_pending(&self) -> bool {
        self.pending
    }

    fn write_pending(&mut self, _client: &mut ()) -> Put {
        self.pending = false;
        Put::Took(1)
    }

    fn finish(&mut self) -> Result<()> {
        if !push(&mut self.closing, HttpTask::Done) {
            return Err(Fail::OutOfMemory);
        }
        self.pending = self.pending || !self.finished;
        self.finished = true;
        Ok(())
    }

    fn told(&self) -> Told {
        self.told
    }
}

/// A client that has these pieces to send, and breaks off with that error or ends.
pub(super) fn sending(
    alloc: Global,
    pieces: Vec<&'static str>,
    breaks_off: Option<Error>,
) -> Client {
    Client {
        pieces,
        breaks_off,
        put: TaskList::new(alloc),
        batches: Vec::new(alloc),
        closing: TaskList::new(alloc),
        ended: false,
        finished: false,
        pending: false,
        told: NOTHING_TOLD,
    }
}

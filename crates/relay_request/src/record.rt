//! What was done for a request: its attempts, and how much work they took.
ghost use Rattle.std.specs.Prelude.{◌≡◌, ◌+◌, [], ◌∷◌, ◌++◌, length, slice_get, is_none, vec_len, vec_capacity, IsTrue, OnErr, OnOk, IfOk, IfErr, IfSome, IsSome, ◌↔◌, ◌<◌};

use relay_tasks::{Error, Fault, Peer, PhaseLog};
use std::alloc::{AllocError, Global};
use std::marker::Model;

/// One attempt at a peer: whom it asked for, whether its connection had been used before, whether
/// that connection was kept for another request, and the error that ended it, as the application
/// treated it.
#[derive(Drop)]
pub struct AttemptRecord {
    pub peer: Peer,
    pub reused: bool,
    pub kept: bool,
    pub error: Option<Error>,
    /// The fault with which the connector refused the attempt its link, if it did.
    pub fault: Option<Fault>,
}

impl AttemptRecord {
    /// Whether the attempt had a link: the connector did not refuse it one.
    pub fn has_link(&self) -> bool
        ensures { result ≡ is_none self.now.fault }
    {
        self.fault.is_none()
    }
}

/// The attempts of a request, in order.
#[derive(Drop)]
pub struct AttemptList {
    items: Vec<AttemptRecord>,
}

impl Model for AttemptList {
    ghost use Rattle.std.specs.Prelude.{List};
    ghost use Rattle.relay_request.specs.declared.record.AttemptRecord.{AttemptRecord};

    ghost Value = { List AttemptRecord };

    ghost view = { λ a. a.items.items };
}

impl AttemptList {
    /// No attempts.
    pub fn new(alloc: Global) -> AttemptList
        ensures { result ≡ [] }
    {
        AttemptList {
            items: Vec::new(alloc),
        }
    }

    /// Adds an attempt; an `Err` leaves the list as it was.
    pub fn push(&mut self, attempt: AttemptRecord) -> Result<(), AllocError>
        ensures ok { OnOk result (self.new ≡ self.old ++ attempt ∷ []) }
        ensures err { OnErr result (self.new ≡ self.old) }
    {
        self.items.push(attempt)?;
        Ok(())
    }

    /// How many attempts there were.
    pub fn len(&self) -> usize
        ensures { result ≡ length self.now }
    {
        self.items.len()
    }

    /// Whether there was no attempt.
    pub fn is_empty(&self) -> bool
        ensures { IsTrue result ↔ (self.now ≡ []) }
    {
        self.items.is_empty()
    }

    /// The attempt at a place, counted from 0.
    pub fn get(&self, at: usize) -> Option<&AttemptRecord>
        ensures found { IsSome result ↔ (at < length self.now) }
        ensures value { IfSome result (λ a. slice_get self.now at ≡ Some a.now) }
    {
        self.items.get(at)
    }
}

/// The attempts so far, and room for the record of one more, taken before the connector is asked,
/// so that the end of the attempt takes no memory.
#[derive(Drop)]
pub struct AttemptRoom {
    items: Vec<AttemptRecord>,
    ghost room: { vec_len items < vec_capacity items },
}

impl AttemptRoom {
    /// Takes the room behind those attempts, which come back where there is no memory for it.
    pub fn behind(tries: AttemptList) -> Result<AttemptRoom, AttemptList>
        ensures ok { IfOk result (λ room. room.items.items ≡ tries) }
        ensures err { IfErr result (λ attempts. attempts ≡ tries) }
    {
        let mut items = tries.items;
        match items.reserve(1) {
            Ok(()) => Ok(AttemptRoom { items }),
            Err(AllocError) => Err(AttemptList { items }),
        }
    }

    /// The attempts so far.
    pub fn into_tries(self) -> AttemptList
        ensures { result ≡ self.items.items }
    {
        AttemptList { items: self.items }
    }

    /// How many attempts there are with this one.
    pub fn made(&self) -> usize
        ensures { result ≡ 1 + length self.now.items.items }
    {
        self.items.len() + 1
    }

    /// The attempts so far, and this one.
    pub fn fill(self, attempt: AttemptRecord) -> AttemptList
        ensures { result ≡ self.items.items ++ attempt ∷ [] }
    {
        let mut items = self.items;
        items.push(attempt).unwrap();
        AttemptList { items }
    }
}

/// What was done for a request. Numbers stand still at their type's last value.
#[derive(Drop)]
pub struct RunRecord {
    /// The hooks that were called.
    pub log: PhaseLog,
    pub attempts: AttemptList,
    /// The turns that were counted.
    pub turns_taken: u64,
    /// Heads, pieces and tasks that were put, taken or dropped.
    pub tasks_moved: u64,
    /// Answers of the request's links, `Silent` aside.
    pub items_used: u64,
    /// Requests, responses, bodies and halves that ended, and refusals.
    pub sides_ended: u64,
}

//! Messages of custom protocols, and those that a hook puts in front of a forwarding.
ghost use Rattle.std.specs.Prelude.{◌≡◌, ◌++◌, ◌∷◌, ◌==◌, [], length, slice_get, IfOk, OnOk, OnErr, IsOkUnless, MatchOption, option_copied};

use crate::error::{Fail, Result};
use bytes::Bytes;
use std::alloc::{AllocError, Global};
use std::collections::VecDeque;
use std::marker::Model;

/// Messages in order. A contract sees their list, each message as its bytes.
#[derive(Drop)]
pub struct MessageList {
    messages: VecDeque<Bytes>,
}

impl Model for MessageList {
    ghost use Rattle.std.specs.Prelude.{ℕ, List};

    ghost Value = { List (List ℕ) };

    ghost view = { λ l. l.messages.items };
}

impl MessageList {
    /// An empty list, which has taken no memory.
    pub fn new(alloc: Global) -> MessageList
        ensures { result ≡ [] }
    {
        MessageList {
            messages: VecDeque::new(alloc),
        }
    }

    /// Adds the message at the end. Without memory the list stays as it was, and the message is
    /// gone.
    pub fn push(&mut self, message: Bytes) -> Result<()>
        ensures ok { OnOk result (self.new ≡ self.old ++ message ∷ []) }
        ensures memory { IsOkUnless result Fail.OutOfMemory }
        ensures err { OnErr result (self.new ≡ self.old) }
    {
        self.messages.push_back(message).map_err(AllocError::from)?;
        Ok(())
    }

    /// Takes the first message, in a time that does not grow with the list.
    pub fn take_first(&mut self) -> Option<Bytes>
        ensures { MatchOption result ((self.old ≡ []) × (self.new ≡ [])) (λ message. self.old
            ≡ message ∷ self.new) }
    {
        self.messages.pop_front()
    }

    /// How many messages there are.
    pub fn len(&self) -> usize
        ensures { result ≡ length self.now }
    {
        self.messages.len()
    }

    /// Whether there is no message.
    pub fn is_empty(&self) -> bool
        ensures { result ≡ (length self.now == 0) }
    {
        self.messages.is_empty()
    }

    /// The message at that place, counted from 0.
    pub fn get(&self, at: usize) -> Option<&Bytes>
        ensures { option_copied result ≡ slice_get self.now at }
    {
        self.messages.get(at)
    }

    /// An equal list.
    pub fn copy(&self) -> Result<MessageList>
        ensures ok { IfOk result (λ copy. copy ≡ self.now) }
        ensures memory { IsOkUnless result Fail.OutOfMemory }
    {
        let mut copy = MessageList::new(*self.messages.allocator());
        for message in self.messages.iter() {
            copy.push(message.clone()?)?;
        }
        Ok(copy)
    }
}

/// What a hook sends in front of a forwarding: messages to the upstream, and to the client.
#[derive(Drop)]
pub struct Injected {
    pub to_upstream: MessageList,
    pub to_downstream: MessageList,
}

impl Injected {
    /// Nothing to send.
    pub fn new(alloc: Global) -> Injected
        ensures { result ≡ record { to_upstream = []; to_downstream = [] } }
    {
        Injected {
            to_upstream: MessageList::new(alloc),
            to_downstream: MessageList::new(alloc),
        }
    }

    /// Equal lists.
    pub fn copy(&self) -> Result<Injected>
        ensures ok { IfOk result (λ copy. copy ≡ self.now) }
        ensures memory { IsOkUnless result Fail.OutOfMemory }
    {
        let to_upstream = self.to_upstream.copy()?;
        let to_downstream = self.to_downstream.copy()?;
        Ok(Injected {
            to_upstream,
            to_downstream,
        })
    }
}

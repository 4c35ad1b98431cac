//! A purger in memory: it keeps its calls, and gives one answer.
ghost use Rattle.std.specs.Prelude.{◌≡◌, [], ◌∷◌, ◌++◌, Some, OnOk, OnErr};
ghost use Rattle.relay_links.specs.Purger.{Purges};
ghost use Rattle.relay_links.specs.MemoryPurger.{purger_state, one_answer, AnswersAs};

use crate::purger::{PurgeCall, Purger};
use bytes::Bytes;
use relay_tasks::{PurgeAction, Purged};
use std::alloc::{AllocError, Global};

/// Gives one answer to each call, and keeps the calls.
#[derive(Drop)]
pub struct MemoryPurger {
    alloc: Global,
    answer: Purged,
    calls: Vec<PurgeCall>,
    faults: u64,
}

impl MemoryPurger {
    /// A purger with that answer, which nobody has called.
    pub fn new(alloc: Global, answer: Purged) -> MemoryPurger
        ensures answer { one_answer result ≡ answer }
        ensures state { purger_state result ≡ record { told = Some []; faults = 0 } }
    {
        MemoryPurger {
            alloc,
            answer,
            calls: Vec::new(alloc),
            faults: 0,
        }
    }

    /// Its calls, in order.
    pub fn calls(&self) -> &[PurgeCall]
        ensures { (purger_state self.now).told ≡ Some result.now }
    {
        self.calls.as_slice()
    }

    /// Keeps the call.
    fn keep(&mut self, action: PurgeAction, host: &[u8], target: &[u8]) -> Result<(), AllocError>
        ensures ok { OnOk result (self.new.calls.items ≡ self.old.calls.items
            ++ record {
              action = action;
              host = host.now;
              target = target.now;
              answer = self.old.answer;
            } ∷ []) }
        ensures err { OnErr result (self.new.calls.items ≡ self.old.calls.items) }
        ensures answer { self.new.answer ≡ self.old.answer }
        ensures faults { self.new.faults ≡ self.old.faults }
    {
        let call = PurgeCall {
            action,
            host: Bytes::copy_from_slice(self.alloc, host)?,
            target: Bytes::copy_from_slice(self.alloc, target)?,
            answer: self.answer,
        };
        self.calls.push(call)?;
        Ok(())
    }
}

impl Purger for MemoryPurger {
    ghost state = { purger_state };

    fn purge(&mut self, action: PurgeAction, host: &[u8], target: &[u8]) -> Purged
        ensures state { Purges (purger_state self.old) action host.now target.now
            (purger_state self.new) result }
        ensures exact { AnswersAs (one_answer self.old) result }
        ensures answer { one_answer self.new ≡ one_answer self.old }
    {
        let faults = self.faults;
        if self.answer == Purged::OutOfMemory {
            return Purged::OutOfMemory;
        }
        if self.keep(action, host, target).is_err() {
            return Purged::OutOfMemory;
        }
        match self.answer {
            Purged::NoCache => Purged::NoCache,
            Purged::Found => Purged::Found,
            Purged::NotFound => Purged::NotFound,
            Purged::Failed(fault) => {
                self.faults = faults.saturating_add(1);
                Purged::Failed(fault)
            }
            Purged::OutOfMemory => Purged::OutOfMemory,
        }
    }

    fn faults(&self) -> u64 {
        self.faults
    }
}

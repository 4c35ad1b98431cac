//! A script of writes: a list of items, each of which answers one or more writes to a link.
ghost use Rattle.std.specs.Prelude.{◌≡◌};
ghost use Rattle.relay_links.specs.WriteScript.{is_passed, IsSettled, Passes, TakesTurn};

use crate::script_fault::write_fault;
use relay_tasks::Fault;

/// An item of a script of writes.
#[derive(Clone, Copy, Debug, PartialEq, Eq)]
pub enum WriteItem {
    /// One write takes at most that many bytes; an item of 0 is passed over.
    Take(u32),
    /// That many writes answer `NotReady`.
    Wait(u32),
    /// One write fails; a kind other than `WriteTimedout` is answered as `Write`.
    Fault(Fault),
}

/// What the item in front does with a write.
#[derive(Clone, Copy, Debug, PartialEq, Eq)]
pub enum WriteTurn {
    /// At most that many bytes are taken.
    Takes(u32),
    /// Everything is taken: the items are used up.
    TakesAll,
    /// Nothing is taken now.
    Waits,
    /// The write fails.
    Fails(Fault),
}

impl WriteItem {
    /// Whether the item has answered all that it answers, where `done` waits of it are done.
    pub fn is_passed(&self, done: usize) -> bool
        ensures { result ≡ is_passed self.now done }
    {
        match self {
            WriteItem::Take(bytes) => *bytes == 0,
            WriteItem::Wait(waits) => *waits as usize <= done,
            WriteItem::Fault(_) => false,
        }
    }
}

/// The items, the place of the item that answers, and how many waits of it are done.
#[derive(Drop)]
pub struct WriteScript {
    pub items: Vec<WriteItem>,
    pub at: usize,
    pub done: usize,
}

impl WriteScript {
    /// A script that has answered nothing.
    pub fn new(items: Vec<WriteItem>) -> WriteScript
        ensures { result ≡ record { items = items; at = 0; done = 0 } }
    {
        WriteScript {
            items,
            at: 0,
            done: 0,
        }
    }

    /// Passes the items that have answered all.
    fn settle(&mut self)
        ensures passes { Passes self.old self.new }
        ensures settled { IsSettled self.new }
    {
        while self.at < self.items.len() {
            if !self.items[self.at].is_passed(self.done) {
                return;
            }
            self.at += 1;
            self.done = 0;
        }
    }

    /// What becomes of the next write: the item in front answers it.
    pub fn turn(&mut self) -> WriteTurn
        ensures { TakesTurn self.old self.new result }
    {
        self.settle();
        if self.items.len() <= self.at {
            return WriteTurn::TakesAll;
        }
        match self.items[self.at] {
            WriteItem::Take(bytes) => {
                self.at += 1;
                self.done = 0;
                WriteTurn::Takes(bytes)
            }
            WriteItem::Wait(waits) => {
                let _fits = waits;
                self.done += 1;
                WriteTurn::Waits
            }
            WriteItem::Fault(fault) => {
                self.at += 1;
                self.done = 0;
                WriteTurn::Fails(write_fault(fault))
            }
        }
    }
}

//! The place of a link among the items of its script of sends: which item answers the next send.
ghost use Rattle.std.specs.Prelude.{◌≡◌, ◌<◌, ◌≤◌, ◌+◌};
ghost use Rattle.relay_messages.specs.declared.message_link.Sent.TheVariants as sent;
ghost use Rattle.relay_messages.specs.SendPlace.{sends_left, sends_front, is_passed, TakesTurn};

use crate::message_fault::send_fault;
use crate::message_link::Sent;
use relay_links::WriteItem;

/// The place of the item that answers, and how many waits of it are done.
#[derive(Clone, Copy, Debug, PartialEq, Eq)]
pub struct SendPlace {
    pub at: usize,
    pub done: usize,
}

impl SendPlace {
    /// The place in front of all items.
    pub fn new() -> SendPlace
        ensures { result ≡ record { at = 0; done = 0 } }
    {
        SendPlace { at: 0, done: 0 }
    }

    /// Passes the items that have answered all.
    fn settle(&mut self, items: &[WriteItem])
        ensures front { sends_front items.now self.new ≡ sends_front items.now self.old }
        ensures settled { sends_left items.now self.new ≡ sends_front items.now self.new }
    {
        while self.at < items.len() {
            if !is_passed(items[self.at], self.done) {
                return;
            }
            self.at += 1;
            self.done = 0;
        }
    }

    /// What becomes of the next send: the item in front answers it, and past the last one it is
    /// done.
    pub fn turn(&mut self, items: &[WriteItem]) -> Sent
        ensures { TakesTurn items.now self.old result self.new }
    {
        self.settle(items);
        if items.len() <= self.at {
            return Sent::Done;
        }
        match items[self.at] {
            WriteItem::Take(_) => Sent::Done,
            WriteItem::Wait(waits) => self.wait(waits as usize),
            WriteItem::Fault(fault) => {
                self.at += 1;
                self.done = 0;
                Sent::Failed(send_fault(fault))
            }
        }
    }

    /// One more wait of the item in front is done, where it has waits left.
    fn wait(&mut self, waits: usize) -> Sent
        ensures answer { result ≡ sent.NotReady }
        ensures less { self.old.done < waits → self.new
            ≡ record self.old { done = self.old.done + 1 } }
        ensures none { waits ≤ self.old.done → self.new ≡ self.old }
    {
        if self.done < waits {
            self.done += 1;
        }
        Sent::NotReady
    }
}

/// Whether the item is passed over, where `done` waits of it are done: a number of bytes says nothing
/// of whole messages, and each other item is passed over as in a script of writes.
fn is_passed(item: WriteItem, done: usize) -> bool
    ensures { result ≡ is_passed item done }
{
    match item {
        WriteItem::Take(_) => true,
        WriteItem::Wait(_) | WriteItem::Fault(_) => item.is_passed(done),
    }
}

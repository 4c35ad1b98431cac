//! A script of reads: a list of items, each of which answers one or more reads of a link.
ghost use Rattle.std.specs.Prelude.{◌≡◌, ◌<◌, length, false};
ghost use Rattle.relay_links.specs.ReadScript.{is_passed, IsSettled, Passes, ReadsScript};

use crate::link::Got;
use crate::room::give;
use crate::script_fault::read_fault;
use bytes::Bytes;
use relay_tasks::Fault;

/// An item of a script of reads.
#[derive(Drop)]
pub enum ReadItem {
    /// These bytes are given; one read gives bytes of one item only.
    Bytes(Bytes),
    /// That many reads answer `NotReady`.
    Wait(u32),
    /// Silent until the link took that many bytes in all.
    After(u32),
    /// One read fails; a kind other than `ReadTimedout` is answered as `Read`.
    Fault(Fault),
    /// The link ends, for ever.
    End,
}

impl ReadItem {
    /// Whether the item has answered all that it answers, where `done` bytes or waits of it are
    /// done and the link took `taken` bytes.
    pub fn is_passed(&self, done: usize, taken: usize) -> bool
        ensures { result ≡ is_passed self.now done taken }
    {
        match self {
            ReadItem::Bytes(bytes) => bytes.len() <= done,
            ReadItem::Wait(waits) => *waits as usize <= done,
            ReadItem::After(bytes) => *bytes as usize <= taken,
            ReadItem::Fault(_) => false,
            ReadItem::End => false,
        }
    }
}

/// The items, the place of the item that answers, how many bytes or waits of it are done, and
/// whether the script has answered its end.
#[derive(Drop)]
pub struct ReadScript {
    pub items: Vec<ReadItem>,
    pub at: usize,
    pub done: usize,
    pub ended: bool,
}

impl ReadScript {
    /// A script that has answered nothing.
    pub fn new(items: Vec<ReadItem>) -> ReadScript
        ensures { result ≡ record { items = items; at = 0; done = 0; ended = false } }
    {
        ReadScript {
            items,
            at: 0,
            done: 0,
            ended: false,
        }
    }

    /// Passes the items that have answered all.
    fn settle(&mut self, taken: usize)
        ensures passes { Passes self.old self.new taken }
        ensures settled { IsSettled self.new taken }
    {
        while self.at < self.items.len() {
            if !self.items[self.at].is_passed(self.done, taken) {
                return;
            }
            self.at += 1;
            self.done = 0;
        }
    }

    /// Reads into the start of the room, where the link took `taken` bytes in all: the item in
    /// front answers.
    pub fn read(&mut self, taken: usize, room: &mut [u8]) -> Got
        requires { 0 < length room.old }
        ensures { ReadsScript self.old taken room.new self.new result }
    {
        if self.ended {
            return Got::End;
        }
        self.settle(taken);
        if self.items.len() <= self.at {
            return Got::Silent;
        }
        match &self.items[self.at] {
            ReadItem::Bytes(bytes) => {
                let count = give(bytes.as_slice(), self.done, room);
                self.done += count;
                Got::Bytes(count)
            }
            ReadItem::Wait(waits) => {
                let _fits = *waits;
                self.done += 1;
                Got::NotReady
            }
            ReadItem::After(_) => Got::Silent,
            ReadItem::Fault(fault) => {
                let fault = read_fault(*fault);
                self.at += 1;
                self.done = 0;
                Got::Failed(fault)
            }
            ReadItem::End => {
                self.ended = true;
                Got::End
            }
        }
    }
}

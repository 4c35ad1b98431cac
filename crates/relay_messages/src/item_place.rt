//! The place of a stream among the items of a script: which item answers its next call.
ghost use Rattle.std.specs.Prelude.{◌≡◌, ◌<◌, ◌≤◌, ◌+◌};
ghost use Rattle.relay_messages.specs.declared.message_link.Came.TheVariants as came;
ghost use Rattle.relay_messages.specs.ItemPlace.{first_place, place_of, left_of, front_of, Steps};
ghost use Rattle.relay_messages.specs.MessageLink.{other};

use crate::item::{GivenItem, ItemKind, MessageItem, Stream};
use crate::message_link::Came;

/// The place of the item that answers, how many waits of it are done, whether the response has
/// ended in front of it, and whether the stream has answered its end.
#[derive(Clone, Copy, Debug, PartialEq, Eq)]
pub struct ItemPlace {
    pub at: usize,
    pub done: usize,
    pub over: bool,
    pub ended: bool,
}

impl ItemPlace {
    /// The place in front of all items.
    pub fn new() -> ItemPlace
        ensures { result ≡ first_place }
    {
        ItemPlace {
            at: 0,
            done: 0,
            over: false,
            ended: false,
        }
    }

    /// Passes the items that are of the other stream or have answered all.
    fn settle(&mut self, stream: Stream, taken: usize, items: &[MessageItem])
        ensures front { front_of stream taken items.now self.new
            ≡ front_of stream taken items.now self.old }
        ensures settled { left_of items.now self.new ≡ front_of stream taken items.now self.new }
        ensures over { self.new.over ≡ self.old.over }
        ensures ended { self.new.ended ≡ self.old.ended }
    {
        while self.at < items.len() {
            if !items[self.at].is_passed(stream, self.over, taken, self.done) {
                return;
            }
            self.at += 1;
            self.done = 0;
        }
    }

    /// What the item in front answers to a call of the stream that wants an item of that kind,
    /// where the link took `taken` items in all.
    pub fn answer(
        &mut self,
        stream: Stream,
        wants: ItemKind,
        taken: usize,
        items: &[MessageItem],
    ) -> Came<GivenItem>
        ensures { Steps stream wants taken items.now self.old result self.new }
    {
        if self.ended {
            return Came::End;
        }
        self.settle(stream, taken, items);
        if items.len() <= self.at {
            return Came::Silent;
        }
        let item = &items[self.at];
        match item.answer(wants) {
            Came::Item(given) => {
                let last = given.is_last();
                self.at += 1;
                self.done = 0;
                self.over = self.over || last;
                Came::Item(given)
            }
            Came::NotReady => self.wait(item.waits()),
            Came::Silent => Came::Silent,
            Came::End => {
                self.ended = true;
                Came::End
            }
            Came::Failed(fault) => {
                self.at += 1;
                self.done = 0;
                Came::Failed(fault)
            }
            Came::OutOfMemory => Came::OutOfMemory,
        }
    }

    /// One more wait of the item in front is done, where it has waits left.
    fn wait(&mut self, waits: usize) -> Came<GivenItem>
        ensures answer { result ≡ came.NotReady }
        ensures less { self.old.done < waits → self.new
            ≡ record self.old { done = self.old.done + 1 } }
        ensures none { waits ≤ self.old.done → self.new ≡ self.old }
    {
        if self.done < waits {
            self.done += 1;
        }
        Came::NotReady
    }
}

/// The place of each stream.
#[derive(Clone, Copy, Debug, PartialEq, Eq)]
pub struct StreamPlaces {
    pub main: ItemPlace,
    pub messages: ItemPlace,
}

impl StreamPlaces {
    /// Each stream in front of all items.
    pub fn new() -> StreamPlaces
        ensures { result ≡ record { main = first_place; messages = first_place } }
    {
        StreamPlaces {
            main: ItemPlace::new(),
            messages: ItemPlace::new(),
        }
    }

    /// The place of the stream.
    pub fn of(&self, stream: Stream) -> ItemPlace
        ensures { result ≡ place_of stream self.now }
    {
        match stream {
            Stream::Main => self.main,
            Stream::Messages => self.messages,
        }
    }

    /// Puts the stream at the place; the other one stays.
    pub fn put(&mut self, stream: Stream, place: ItemPlace)
        ensures here { place_of stream self.new ≡ place }
        ensures other { place_of (other stream) self.new ≡ place_of (other stream) self.old }
    {
        match stream {
            Stream::Main => self.main = place,
            Stream::Messages => self.messages = place,
        }
    }
}

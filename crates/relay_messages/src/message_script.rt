//! Message links in memory that answer by scripts, plain and custom: they tell all that links mean.
ghost use Rattle.std.specs.Prelude.{◌≡◌, ◌++◌, ◌∷◌, [], false, IsTrue, Some};
ghost use Rattle.relay_messages.specs.declared.item.Stream.TheVariants.{Main, Messages};
ghost use Rattle.relay_messages.specs.declared.item.ItemKind.TheVariants as kind;
ghost use Rattle.relay_messages.specs.declared.item.TakenItem.TheVariants as taken_item;
ghost use Rattle.relay_messages.specs.declared.message_link.Sent.TheVariants as sent;
ghost use Rattle.relay_messages.specs.Item.{IsWanted};
ghost use Rattle.relay_messages.specs.MessageLink.{Receives, Sends, WantsMemory, IsHandedOut, given_head, given_body, given_trailers, given_message, reset_once, marked_once};
ghost use Rattle.relay_messages.specs.MessageScript.{script_state, script_start, same_item, IsFresh, KeepsScripts, FollowsReads, FollowsWrites};

use crate::custom_link::CustomLink;
use crate::item::{GivenItem, ItemKind, MessageItem, Stream, TakenItem};
use crate::item_place::StreamPlaces;
use crate::message_link::{Came, MessageLink, Sent};
use crate::send_place::SendPlace;
use bytes::Bytes;
use http_header::HeaderMap;
use relay_links::WriteItem;
use relay_tasks::{Fault, RequestHeader, ResponseHeader};
use std::alloc::Global;

/// How long a link's lists were, and where its counts stood, when it was handed out.
#[derive(Clone, Copy, Debug, Default, PartialEq, Eq)]
pub struct MessageStarted {
    pub given: usize,
    pub taken: usize,
    pub read_faults: usize,
    pub write_faults: usize,
    pub waits: u64,
    pub used: u64,
    pub faults: u64,
    pub resets: u64,
    pub shutdowns: u64,
    pub reused: bool,
}

/// A message link that gives copies of its items and takes as they say, past the last item
/// everything. Heads, bodies and trailers pass over messages, and those over heads, bodies and
/// trailers. A custom link has a reader and a writer of messages where its flags say so.
#[derive(Drop)]
pub struct MessageScript<const CUSTOM: bool> {
    read: Vec<MessageItem>,
    write: Vec<WriteItem>,
    places: StreamPlaces,
    sends: SendPlace,
    given: Vec<GivenItem>,
    taken: Vec<TakenItem>,
    read_faults: Vec<Fault>,
    write_faults: Vec<Fault>,
    waits: u64,
    used: u64,
    faults: u64,
    resets: u64,
    shutdowns: u64,
    reader: bool,
    writer: bool,
    started: MessageStarted,
}

/// A message link that is no custom link: it passes over messages.
pub type ScriptMessages = MessageScript<false>;

/// A custom link, which gives and takes messages too.
pub type ScriptCustom = MessageScript<true>;

impl MessageScript<false> {
    /// A link that has answered nothing, with these items.
    pub fn new(alloc: Global, read: Vec<MessageItem>, write: Vec<WriteItem>) -> ScriptMessages
        ensures { IsFresh result read.items write.items false false }
    {
        MessageScript::fresh(alloc, read, write, false, false)
    }
}

impl MessageScript<true> {
    /// A link that has answered nothing, with these items, and with a reader and a writer of
    /// messages where the flags say so.
    pub fn new(
        alloc: Global,
        read: Vec<MessageItem>,
        write: Vec<WriteItem>,
        reader: bool,
        writer: bool,
    ) -> ScriptCustom
        ensures { IsFresh result read.items write.items reader writer }
    {
        MessageScript::fresh(alloc, read, write, reader, writer)
    }
}

impl<const CUSTOM: bool> MessageScript<CUSTOM> {
    /// A link that has answered nothing, with these items, and with a reader and a writer of
    /// messages where the flags say so.
    fn fresh(
        alloc: Global,
        read: Vec<MessageItem>,
        write: Vec<WriteItem>,
        reader: bool,
        writer: bool,
    ) -> MessageScript<CUSTOM>
        ensures { IsFresh result read.items write.items reader writer }
    {
        MessageScript {
            read,
            write,
            places: StreamPlaces::new(),
            sends: SendPlace::new(),
            given: Vec::new(alloc),
            taken: Vec::new(alloc),
            read_faults: Vec::new(alloc),
            write_faults: Vec::new(alloc),
            waits: 0,
            used: 0,
            faults: 0,
            resets: 0,
            shutdowns: 0,
            reader,
            writer,
            started: MessageStarted::default(),
        }
    }

    /// Notes where the link stands as it is handed out, and whether it had been used before.
    pub fn hand_out(&mut self, reused: bool)
        ensures state { script_state self.new ≡ script_state self.old }
        ensures scripts { KeepsScripts self.old self.new }
        ensures start { IsHandedOut (script_state self.new) (script_start self.new) reused }
    {
        let (waits, used, faults) = (self.waits, self.used, self.faults);
        let (resets, shutdowns) = (self.resets, self.shutdowns);
        self.started = MessageStarted {
            given: self.given.len(),
            taken: self.taken.len(),
            read_faults: self.read_faults.len(),
            write_faults: self.write_faults.len(),
            waits,
            used,
            faults,
            resets,
            shutdowns,
            reused,
        };
    }

    /// What the link gave, in order.
    pub fn given(&self) -> &[GivenItem]
        ensures { (script_state self.now).given ≡ Some result.now }
    {
        self.given.as_slice()
    }

    /// What the link took, in order.
    pub fn taken(&self) -> &[TakenItem]
        ensures { (script_state self.now).taken ≡ Some result.now }
    {
        self.taken.as_slice()
    }

    /// How much it had taken when it was handed out.
    pub fn start_taken(&self) -> usize
        ensures { result ≡ (script_start self.now).taken }
    {
        self.started.taken
    }

    /// How often it was reset; the count stands still at its last value.
    pub fn resets(&self) -> u64
        ensures { result ≡ (script_state self.now).resets }
    {
        self.resets
    }

    /// How often it was marked for shutdown; the count stands still at its last value.
    pub fn shutdowns(&self) -> u64
        ensures { result ≡ (script_state self.now).shutdowns }
    {
        self.shutdowns
    }

    /// A send for which there was no memory.
    fn want_memory(&mut self) -> Sent
        ensures answer { (result
            ≡ sent.OutOfMemory) × WantsMemory (script_state self.old) (script_state self.new) }
        ensures start { script_start self.new ≡ script_start self.old }
        ensures script { KeepsScripts self.old self.new }
    {
        let (_waits, used, _faults) = (self.waits, self.used, self.faults);
        self.used = used.saturating_add(1);
        Sent::OutOfMemory
    }

    /// What the item in front of the stream answers to a call that wants an item of that kind.
    fn receive(&mut self, stream: Stream, wants: ItemKind) -> Came<GivenItem>
        ensures answer { Receives stream same_item (script_state self.old) (script_state self.new)
            result }
        ensures start { script_start self.new ≡ script_start self.old }
        ensures script { FollowsReads stream wants same_item self.old self.new result }
        ensures wanted { IsWanted wants result }
    {
        let (waits, used, faults) = (self.waits, self.used, self.faults);
        let mut place = self.places.of(stream);
        let answer = place.answer(stream, wants, self.taken.len(), self.read.as_slice());
        if !matches!(&answer, Came::Silent) {
            self.used = used.saturating_add(1);
        }
        match answer {
            Came::Item(item) => {
                if !keep(&mut self.given, &item) {
                    return Came::OutOfMemory;
                }
                self.places.put(stream, place);
                Came::Item(item)
            }
            Came::NotReady => {
                self.waits = waits.saturating_add(1);
                self.places.put(stream, place);
                Came::NotReady
            }
            Came::Silent => Came::Silent,
            Came::End => {
                self.places.put(stream, place);
                Came::End
            }
            Came::Failed(fault) => {
                if self.read_faults.push(fault).is_err() {
                    return Came::OutOfMemory;
                }
                self.faults = faults.saturating_add(1);
                self.places.put(stream, place);
                Came::Failed(fault)
            }
            Came::OutOfMemory => Came::OutOfMemory,
        }
    }

    /// Offers the item: the item in front of the script of sends answers, and past the last one all
    /// is taken.
    fn send(&mut self, item: TakenItem) -> Sent
        ensures answer { Sends (script_state self.old) item (script_state self.new) result }
        ensures start { script_start self.new ≡ script_start self.old }
        ensures script { FollowsWrites self.old self.new result }
    {
        let (waited, used, faults) = (self.waits, self.used, self.faults);
        self.used = used.saturating_add(1);
        let mut place = self.sends;
        match place.turn(self.write.as_slice()) {
            Sent::Done => {
                if self.taken.push(item).is_err() {
                    return Sent::OutOfMemory;
                }
                self.sends = place;
                Sent::Done
            }
            Sent::NotReady => {
                self.waits = waited.saturating_add(1);
                self.sends = place;
                Sent::NotReady
            }
            Sent::Failed(fault) => {
                if self.write_faults.push(fault).is_err() {
                    return Sent::OutOfMemory;
                }
                self.faults = faults.saturating_add(1);
                self.sends = place;
                Sent::Failed(fault)
            }
            Sent::Silent | Sent::OutOfMemory => unreachable!(),
        }
    }
}

impl<const CUSTOM: bool> MessageLink for MessageScript<CUSTOM> {
    ghost state = { script_state };

    ghost start = { script_start };

    fn send_head(&mut self, head: &RequestHeader, end: bool) -> Sent
        ensures answer { Sends (script_state self.old) (taken_item.Head head.now end)
            (script_state self.new) result }
        ensures start { script_start self.new ≡ script_start self.old }
        ensures script { FollowsWrites self.old self.new result }
    {
        match head.copy() {
            Ok(head) => self.send(TakenItem::Head(head, end)),
            Err(_) => self.want_memory(),
        }
    }

    fn send_body(&mut self, piece: &Bytes, end: bool) -> Sent
        ensures answer { Sends (script_state self.old) (taken_item.Body piece.now end)
            (script_state self.new) result }
        ensures start { script_start self.new ≡ script_start self.old }
        ensures script { FollowsWrites self.old self.new result }
    {
        match piece.clone() {
            Ok(piece) => self.send(TakenItem::Body(piece, end)),
            Err(_) => self.want_memory(),
        }
    }

    fn recv_head(&mut self) -> Came<(ResponseHeader, bool)>
        ensures answer { Receives Main given_head (script_state self.old) (script_state self.new)
            result }
        ensures start { script_start self.new ≡ script_start self.old }
        ensures script { FollowsReads Main kind.Head given_head self.old self.new result }
    {
        match self.receive(Stream::Main, ItemKind::Head) {
            Came::Item(item) => Came::Item(item.into_head()),
            Came::NotReady => Came::NotReady,
            Came::Silent => Came::Silent,
            Came::End => Came::End,
            Came::Failed(fault) => Came::Failed(fault),
            Came::OutOfMemory => Came::OutOfMemory,
        }
    }

    fn recv_body(&mut self) -> Came<(Bytes, bool)>
        ensures answer { Receives Main given_body (script_state self.old) (script_state self.new)
            result }
        ensures start { script_start self.new ≡ script_start self.old }
        ensures script { FollowsReads Main kind.Body given_body self.old self.new result }
    {
        match self.receive(Stream::Main, ItemKind::Body) {
            Came::Item(item) => Came::Item(item.into_body()),
            Came::NotReady => Came::NotReady,
            Came::Silent => Came::Silent,
            Came::End => Came::End,
            Came::Failed(fault) => Came::Failed(fault),
            Came::OutOfMemory => Came::OutOfMemory,
        }
    }

    fn recv_trailers(&mut self) -> Came<HeaderMap>
        ensures answer { Receives Main given_trailers (script_state self.old)
            (script_state self.new) result }
        ensures start { script_start self.new ≡ script_start self.old }
        ensures script { FollowsReads Main kind.Trailers given_trailers self.old self.new result }
    {
        match self.receive(Stream::Main, ItemKind::Trailers) {
            Came::Item(item) => Came::Item(item.into_trailers()),
            Came::NotReady => Came::NotReady,
            Came::Silent => Came::Silent,
            Came::End => Came::End,
            Came::Failed(fault) => Came::Failed(fault),
            Came::OutOfMemory => Came::OutOfMemory,
        }
    }

    fn reset(&mut self)
        ensures once { script_state self.new ≡ reset_once (script_state self.old) }
        ensures start { script_start self.new ≡ script_start self.old }
        ensures script { KeepsScripts self.old self.new }
    {
        let resets = self.resets;
        self.resets = resets.saturating_add(1);
    }

    fn mark_shutdown(&mut self)
        ensures once { script_state self.new ≡ marked_once (script_state self.old) }
        ensures start { script_start self.new ≡ script_start self.old }
        ensures script { KeepsScripts self.old self.new }
    {
        let shutdowns = self.shutdowns;
        self.shutdowns = shutdowns.saturating_add(1);
    }

    fn faults(&self) -> u64 {
        self.faults
    }

    fn used(&self) -> u64 {
        self.used
    }
}

impl CustomLink for MessageScript<true> {
    fn take_reader(&mut self) -> bool
        ensures reader { result ≡ (script_start self.old).reader }
        ensures same { self.new ≡ self.old }
    {
        self.reader
    }

    fn take_writer(&mut self) -> bool
        ensures writer { result ≡ (script_start self.old).writer }
        ensures same { self.new ≡ self.old }
    {
        self.writer
    }

    fn recv_message(&mut self) -> Came<Bytes>
        ensures answer { Receives Messages given_message (script_state self.old)
            (script_state self.new) result }
        ensures start { script_start self.new ≡ script_start self.old }
        ensures script { FollowsReads Messages kind.Message given_message self.old self.new result }
    {
        match self.receive(Stream::Messages, ItemKind::Message) {
            Came::Item(item) => Came::Item(item.into_message()),
            Came::NotReady => Came::NotReady,
            Came::Silent => Came::Silent,
            Came::End => Came::End,
            Came::Failed(fault) => Came::Failed(fault),
            Came::OutOfMemory => Came::OutOfMemory,
        }
    }

    fn send_message(&mut self, message: &Bytes) -> Sent
        ensures answer { Sends (script_state self.old) (taken_item.Message message.now)
            (script_state self.new) result }
        ensures start { script_start self.new ≡ script_start self.old }
        ensures script { FollowsWrites self.old self.new result }
    {
        match message.clone() {
            Ok(message) => self.send(TakenItem::Message(message)),
            Err(_) => self.want_memory(),
        }
    }

    fn finish_custom(&mut self) -> Sent
        ensures answer { Sends (script_state self.old) taken_item.Finish (script_state self.new)
            result }
        ensures start { script_start self.new ≡ script_start self.old }
        ensures script { FollowsWrites self.old self.new result }
    {
        self.send(TakenItem::Finish)
    }
}

/// Puts a copy of the item behind those given before, and says whether there was memory.
fn keep(given: &mut Vec<GivenItem>, item: &GivenItem) -> bool
    ensures kept { IsTrue result → given.new.items ≡ given.old.items ++ item.now ∷ [] }
    ensures no_memory { result ≡ false → given.new.items ≡ given.old.items }
{
    match item.copy() {
        Ok(copy) => given.push(copy).is_ok(),
        Err(_) => false,
    }
}

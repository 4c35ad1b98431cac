//! What message links give and take, and the items of their scripts.
ghost use Rattle.std.specs.Prelude.{◌≡◌, true, IfOk, OnErr, IsOkUnless};
ghost use Rattle.relay_messages.specs.declared.item.ItemKind.TheVariants as kind;
ghost use Rattle.relay_messages.specs.declared.item.GivenItem.TheVariants as given_item;
ghost use Rattle.relay_messages.specs.declared.message_link.Came.TheVariants as came;
ghost use Rattle.relay_messages.specs.MessageLink.{given_head, given_body, given_trailers, given_message};
ghost use Rattle.relay_messages.specs.Item.{kind_of, is_same_kind, is_last, waits_of, is_passed, answer_of, IsAnswer};

use crate::message_fault::receive_fault;
use crate::message_link::Came;
use bytes::Bytes;
use http_header::HeaderMap;
use relay_tasks::{Fail, Fault, RequestHeader, ResponseHeader, Result, copy_fields};

/// What a message link gave. The flag says whether the response ends with it.
pub enum GivenItem {
    Head(ResponseHeader, bool),
    Body(Bytes, bool),
    Trailers(HeaderMap),
    Message(Bytes),
}

/// What a message link took. The flag says whether the request ends with it.
pub enum TakenItem {
    Head(RequestHeader, bool),
    Body(Bytes, bool),
    Message(Bytes),
    /// No further message will be sent.
    Finish,
}

/// What a receiving call asks for.
#[derive(Clone, Copy, Debug, PartialEq, Eq)]
pub enum ItemKind {
    Head,
    Body,
    Trailers,
    Message,
}

/// The two streams of a link, each of which meets the items by its own place.
#[derive(Clone, Copy, Debug, PartialEq, Eq)]
pub enum Stream {
    /// Heads, bodies and trailers.
    Main,
    /// The messages of a custom link.
    Messages,
}

/// An item of a script of a message link. The flag says whether the response ends with it.
pub enum MessageItem {
    Head(ResponseHeader, bool),
    Body(Bytes, bool),
    Trailers(HeaderMap),
    Message(Bytes),
    /// That many receiving calls of a stream answer `NotReady`.
    Wait(u32),
    /// Silent until the link took that many heads, bodies, messages and finishes in all.
    After(u32),
    /// One receiving call of a stream fails; `Write`, `WriteTimedout` and `Connect` are answered as
    /// `Read`.
    Fault(Fault),
    /// Each stream ends, for ever; behind an item with which the response ends, the messages alone.
    End,
}

// Calls in place of the fields: what drops an item needs not know of them.
impl Drop for GivenItem {
    fn drop(self) {
        match self {
            GivenItem::Head(_head, _) => {}
            GivenItem::Body(_piece, _) => {}
            GivenItem::Trailers(_fields) => {}
            GivenItem::Message(_message) => {}
        }
    }
}

impl Drop for TakenItem {
    fn drop(self) {
        match self {
            TakenItem::Head(_head, _) => {}
            TakenItem::Body(_piece, _) => {}
            TakenItem::Message(_message) => {}
            TakenItem::Finish => {}
        }
    }
}

impl Drop for MessageItem {
    fn drop(self) {
        match self {
            MessageItem::Head(_head, _) => {}
            MessageItem::Body(_piece, _) => {}
            MessageItem::Trailers(_fields) => {}
            MessageItem::Message(_message) => {}
            MessageItem::Wait(_) | MessageItem::After(_) => {}
            MessageItem::Fault(_) | MessageItem::End => {}
        }
    }
}

impl GivenItem {
    /// Whether the response ends with the item.
    pub fn is_last(&self) -> bool
        ensures { result ≡ is_last self.now }
    {
        match self {
            GivenItem::Head(_, end) => *end,
            GivenItem::Body(_, end) => *end,
            GivenItem::Trailers(_) => true,
            GivenItem::Message(_) => false,
        }
    }

    /// An equal item.
    pub fn copy(&self) -> Result<GivenItem>
        ensures ok { IfOk result (λ copy. copy ≡ self.now) }
        ensures memory { IsOkUnless result Fail.OutOfMemory }
    {
        match self {
            GivenItem::Head(head, end) => Ok(GivenItem::Head(head.copy()?, *end)),
            GivenItem::Body(piece, end) => Ok(GivenItem::Body(piece.clone()?, *end)),
            GivenItem::Trailers(fields) => Ok(GivenItem::Trailers(copy_fields(fields)?)),
            GivenItem::Message(message) => Ok(GivenItem::Message(message.clone()?)),
        }
    }

    /// The head, of an item that is one.
    pub fn into_head(self) -> (ResponseHeader, bool)
        requires { is_same_kind kind.Head (kind_of self) ≡ true }
        ensures { given_head result ≡ self }
    {
        match self {
            GivenItem::Head(head, end) => (head, end),
            GivenItem::Body(_, _) | GivenItem::Trailers(_) | GivenItem::Message(_) =>
                unreachable!(),
        }
    }

    /// The piece of a body, of an item that is one.
    pub fn into_body(self) -> (Bytes, bool)
        requires { is_same_kind kind.Body (kind_of self) ≡ true }
        ensures { given_body result ≡ self }
    {
        match self {
            GivenItem::Body(piece, end) => (piece, end),
            GivenItem::Head(_, _) | GivenItem::Trailers(_) | GivenItem::Message(_) =>
                unreachable!(),
        }
    }

    /// The trailers, of an item that has them.
    pub fn into_trailers(self) -> HeaderMap
        requires { is_same_kind kind.Trailers (kind_of self) ≡ true }
        ensures { given_trailers result ≡ self }
    {
        match self {
            GivenItem::Trailers(fields) => fields,
            GivenItem::Head(_, _) | GivenItem::Body(_, _) | GivenItem::Message(_) => unreachable!(),
        }
    }

    /// The message, of an item that is one.
    pub fn into_message(self) -> Bytes
        requires { is_same_kind kind.Message (kind_of self) ≡ true }
        ensures { given_message result ≡ self }
    {
        match self {
            GivenItem::Message(message) => message,
            GivenItem::Head(_, _) | GivenItem::Body(_, _) | GivenItem::Trailers(_) =>
                unreachable!(),
        }
    }
}

impl MessageItem {
    /// How many calls of a stream the item lets wait.
    pub fn waits(&self) -> usize
        ensures { result ≡ waits_of self.now }
    {
        match self {
            MessageItem::Wait(waits) => *waits as usize,
            MessageItem::Head(_, _)
            | MessageItem::Body(_, _)
            | MessageItem::Trailers(_)
            | MessageItem::Message(_)
            | MessageItem::After(_)
            | MessageItem::Fault(_)
            | MessageItem::End => 0,
        }
    }

    /// Whether the stream passes over the item: it is of the other stream, or all that it answers
    /// was answered. `over` says that the response has ended in front of it, `done` counts the
    /// waits of it that are done, and the link took `taken` items.
    pub fn is_passed(&self, stream: Stream, over: bool, taken: usize, done: usize) -> bool
        ensures { result ≡ is_passed stream over taken self.now done }
    {
        match self {
            MessageItem::Head(_, _) | MessageItem::Body(_, _) | MessageItem::Trailers(_) => {
                match stream {
                    Stream::Main => false,
                    Stream::Messages => true,
                }
            }
            MessageItem::Message(_) => match stream {
                Stream::Main => true,
                Stream::Messages => false,
            },
            MessageItem::Wait(waits) => *waits as usize <= done,
            MessageItem::After(items) => *items as usize <= taken,
            MessageItem::Fault(_) => false,
            MessageItem::End => match stream {
                Stream::Main => over,
                Stream::Messages => false,
            },
        }
    }

    /// What the item answers to a call that wants an item of that kind. An item of another kind
    /// lets the call wait.
    pub fn answer(&self, wants: ItemKind) -> Came<GivenItem>
        ensures { IsAnswer (answer_of wants self.now) result }
    {
        match self {
            MessageItem::Head(head, end) => match wants {
                ItemKind::Head => came(copy_head(head, *end)),
                ItemKind::Body | ItemKind::Trailers | ItemKind::Message => Came::NotReady,
            },
            MessageItem::Body(piece, end) => match wants {
                ItemKind::Body => came(copy_body(piece, *end)),
                ItemKind::Head | ItemKind::Trailers | ItemKind::Message => Came::NotReady,
            },
            MessageItem::Trailers(fields) => match wants {
                ItemKind::Trailers => came(copy_trailers(fields)),
                ItemKind::Head | ItemKind::Body | ItemKind::Message => Came::NotReady,
            },
            MessageItem::Message(message) => match wants {
                ItemKind::Message => came(copy_message(message)),
                ItemKind::Head | ItemKind::Body | ItemKind::Trailers => Came::NotReady,
            },
            MessageItem::Wait(_) => Came::NotReady,
            MessageItem::After(_) => Came::Silent,
            MessageItem::Fault(fault) => Came::Failed(receive_fault(*fault)),
            MessageItem::End => Came::End,
        }
    }
}

/// The item, or want of memory.
fn came(copy: Result<GivenItem>) -> Came<GivenItem>
    ensures item { IfOk copy (λ item. result ≡ came.Item item) }
    ensures memory { OnErr copy (result ≡ came.OutOfMemory) }
{
    match copy {
        Ok(item) => Came::Item(item),
        Err(_) => Came::OutOfMemory,
    }
}

fn copy_head(head: &ResponseHeader, end: bool) -> Result<GivenItem>
    ensures { IfOk result (λ item. item ≡ given_item.Head head.now end) }
{
    Ok(GivenItem::Head(head.copy()?, end))
}

fn copy_body(piece: &Bytes, end: bool) -> Result<GivenItem>
    ensures { IfOk result (λ item. item ≡ given_item.Body piece.now end) }
{
    Ok(GivenItem::Body(piece.clone()?, end))
}

fn copy_trailers(fields: &HeaderMap) -> Result<GivenItem>
    ensures { IfOk result (λ item. item ≡ given_item.Trailers fields.now) }
{
    Ok(GivenItem::Trailers(copy_fields(fields)?))
}

fn copy_message(message: &Bytes) -> Result<GivenItem>
    ensures { IfOk result (λ item. item ≡ given_item.Message message.now) }
{
    Ok(GivenItem::Message(message.clone()?))
}

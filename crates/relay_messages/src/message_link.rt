//! A message link: a connection that gives and takes whole parts of messages, and what each of its
//! answers means.
ghost use Rattle.std.specs.Prelude.{◌≡◌};
ghost use Rattle.relay_messages.specs.declared.item.Stream.TheVariants.{Main};
ghost use Rattle.relay_messages.specs.declared.item.TakenItem.TheVariants as taken_item;
ghost use Rattle.relay_messages.specs.MessageLink.{MessageState, MessageStart, Receives, Sends, given_head, given_body, given_trailers, reset_once, marked_once};

use bytes::Bytes;
use http_header::HeaderMap;
use relay_tasks::{Fault, RequestHeader, ResponseHeader};

/// The answer of a sending call.
#[derive(Clone, Copy, Debug, PartialEq, Eq)]
pub enum Sent {
    /// All that was offered was taken.
    Done,
    /// Nothing was taken now; a later call may be.
    NotReady,
    /// Nothing is taken until the link gives something. Nothing changed.
    Silent,
    /// The call failed by `Write`, `WriteTimedout` or `H2Error`, and the count of faults rose.
    Failed(Fault),
    /// There was no memory: the link took nothing.
    OutOfMemory,
}

/// The answer of a receiving call.
#[derive(Drop)]
pub enum Came<T> {
    /// This was given.
    Item(T),
    /// Nothing was given now, or what comes next is for another receiving call.
    NotReady,
    /// Nothing is given until the link takes something. Nothing changed.
    Silent,
    /// The stream has given all; each later receiving call on it answers this too.
    End,
    /// The call failed by `Read`, `ReadTimedout`, `H2Error`, `H2Downgrade` or `InvalidH2`, and the
    /// count of faults rose.
    Failed(Fault),
    /// There was no memory: the link gave nothing, and gives it to a later call.
    OutOfMemory,
}

/// A link that gives the heads, bodies and trailers of responses and takes those of requests. It
/// means its state, and the state at which its connector handed it out, which no call changes.
pub trait MessageLink {
    ghost state: { Self → MessageState };

    ghost start: { Self → MessageStart };

    /// Offers the head of a request, and says whether the request ends with it.
    fn send_head(&mut self, head: &RequestHeader, end: bool) -> Sent
        ensures answer { Sends (state self.old) (taken_item.Head head.now end) (state self.new)
            result }
        ensures start { start self.new ≡ start self.old };

    /// Offers a piece of the request's body, and says whether the request ends with it.
    fn send_body(&mut self, piece: &Bytes, end: bool) -> Sent
        ensures answer { Sends (state self.old) (taken_item.Body piece.now end) (state self.new)
            result }
        ensures start { start self.new ≡ start self.old };

    /// Receives the head of a response, and whether the response ends with it.
    fn recv_head(&mut self) -> Came<(ResponseHeader, bool)>
        ensures answer { Receives Main given_head (state self.old) (state self.new) result }
        ensures start { start self.new ≡ start self.old };

    /// Receives a piece of a response's body, and whether the response ends with it.
    fn recv_body(&mut self) -> Came<(Bytes, bool)>
        ensures answer { Receives Main given_body (state self.old) (state self.new) result }
        ensures start { start self.new ≡ start self.old };

    /// Receives the trailers of a response, which end it.
    fn recv_trailers(&mut self) -> Came<HeaderMap>
        ensures answer { Receives Main given_trailers (state self.old) (state self.new) result }
        ensures start { start self.new ≡ start self.old };

    /// Gives up the exchange on the link, as a reset of an HTTP/2 stream does.
    fn reset(&mut self)
        ensures once { state self.new ≡ reset_once (state self.old) }
        ensures start { start self.new ≡ start self.old };

    /// Marks the link's connection as one that takes no further exchange.
    fn mark_shutdown(&mut self)
        ensures once { state self.new ≡ marked_once (state self.old) }
        ensures start { start self.new ≡ start self.old };

    /// How many calls failed; the count stands still at its last value.
    fn faults(&self) -> u64
        ensures { result ≡ (state self.now).faults };

    /// How many answers were other than `Silent`; the count stands still at its last value.
    fn used(&self) -> u64
        ensures { result ≡ (state self.now).used };
}

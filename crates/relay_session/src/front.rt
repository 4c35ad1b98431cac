//! A client as its session sees it: what it gives, piece by piece, and where output goes to it
//! (RFC 9112, sections 2, 3, 6, 7 and 9).
ghost use Rattle.std.specs.Prelude.{◌≡◌, ◌<◌, ◌≤◌, ◌&&◌, ◌==◌, List, ℕ, true, false, length, drop};
ghost use Rattle.relay_links.specs.Link.{LinkState, LinkStart};
ghost use Rattle.relay_h1.specs.BodyReader.{is_done};
ghost use Rattle.relay_h1.specs.Move.{WritesOut};
ghost use Rattle.relay_h1.specs.Verdict.{IsOpen, fail_from};
ghost use Rattle.relay_session.specs.Front.{ReadsHead, ReadsPiece, ReadsBody, Watches, ends_with_head, closed_for, end_of_head, FindsHead, FindsPiece, EndsInBody};

use bytes::Bytes;
use relay_h1::{BodyReader, Connection, Cut, Framing, Output, RequestRead};
use relay_links::{ByteLink, Got, Put};
use relay_tasks::{Context, Error, ErrorSource, ErrorType, Fail, Pause, RequestHeader, Took};
use std::alloc::Global;

/// A client as its session sees it. It means the state of its link, that state as it was when the
/// link was handed out, which no call changes, and the bytes that were read ahead.
///
/// A call that receives uses the link once at most, and only where the bytes ahead do not decide
/// its answer. `OutOfMemory` may come in place of each other answer; then nothing of the head or
/// of the body is consumed, and bytes that came are ahead.
pub trait Front {
    ghost state: { Self → LinkState };

    ghost start: { Self → LinkStart };

    ghost ahead: { Self → List ℕ };

    /// The head of a request, and whether the request ends with it. `End` comes where the client
    /// ended before any byte.
    ///
    /// All of the source `Downstream`: `InvalidHTTPHeader` (the head is refused, as in
    /// `judge_request`), `ConnectionClosed` (the client ended inside its head), and the fault of
    /// the link.
    fn read_head(&mut self, alloc: Global) -> Took<(RequestHeader, bool)>
        ensures answer { ReadsHead (state self.old) (state self.new) (ahead self.old)
            (ahead self.new) result }
        ensures start { start self.new ≡ start self.old };

    /// A piece of the body, one byte at least, and whether the body ends with it. `End` comes where
    /// the body has ended, in a tunnel where the client has. With `idle`, a client whose body has
    /// ended is to be still: it is read, and nothing that it sends is consumed.
    ///
    /// All of the source `Downstream`: `InvalidHTTPHeader` (the body is broken), `ConnectionClosed`
    /// (the client ended inside its body; or it is to be still, and sent more or ended), and the
    /// fault of the link.
    fn read_piece(
        &mut self,
        alloc: Global,
        body: &mut BodyReader,
        idle: bool,
    ) -> Took<(Bytes, bool)>
        ensures body { idle && is_done body.old ≡ false
            → ReadsPiece (state self.old) (state self.new) body.old body.new (ahead self.old)
            (ahead self.new) result }
        ensures still { idle && is_done body.old ≡ true
            → Watches (state self.old) (state self.new) (ahead self.old) (ahead self.new) result }
        ensures stays { idle && is_done body.old ≡ true → body.new ≡ body.old }
        ensures start { start self.new ≡ start self.old };

    /// One write of the output, which holds some bytes. What the client takes leaves it.
    fn write_out(&mut self, out: &mut Output) -> Put
        requires { 0 < length out.old }
        ensures answer { WritesOut (state self.old) (state self.new) out.old out.new result }
        ensures start { start self.new ≡ start self.old }
        ensures ahead { ahead self.new ≡ ahead self.old };

    /// Whether no byte is read ahead.
    fn is_clear(&self) -> bool
        ensures { result ≡ (length (ahead self.now) == 0) };

    /// How many calls of the link failed; the count stands still at its last value.
    fn faults(&self) -> u64
        ensures { result ≡ (state self.now).faults };

    /// How many answers of the link were other than `Silent`; the count stands still at its last
    /// value.
    fn used(&self) -> u64
        ensures { result ≡ (state self.now).used };
}

impl<D: ByteLink, U> Front for Connection<D, U> {
    ghost state = { λ client. D.state client.link };

    ghost start = { λ client. D.start client.link };

    ghost ahead = { λ client. client.ahead };

    fn read_head(&mut self, alloc: Global) -> Took<(RequestHeader, bool)> {
        match self.judge_request(alloc) {
            Ok(Some(read)) => Took::Item(take_head(self, read)),
            Ok(None) => await_head(alloc, self),
            Err(fail) => Took::Failed(fail),
        }
    }

    fn read_piece(
        &mut self,
        alloc: Global,
        body: &mut BodyReader,
        idle: bool,
    ) -> Took<(Bytes, bool)> {
        if idle && body.is_done() {
            return watch(self);
        }
        match self.take_body(alloc, body) {
            Cut::Piece(piece, ends) => Took::Item((piece, ends)),
            Cut::End => Took::End,
            Cut::More => await_piece(alloc, self, body),
            Cut::Failed(fail) => Took::Failed(of_client(fail)),
        }
    }

    fn write_out(&mut self, out: &mut Output) -> Put {
        Connection::write_out(self, out)
    }

    fn is_clear(&self) -> bool {
        self.ahead().is_empty()
    }

    fn faults(&self) -> u64 {
        self.link().faults()
    }

    fn used(&self) -> u64 {
        self.link().used()
    }
}

/// Consumes the head.
fn take_head<D, U>(client: &mut Connection<D, U>, read: RequestRead) -> (RequestHeader, bool)
    requires { read.len ≤ length client.old.ahead }
    ensures head { result.0 ≡ read.head }
    ensures ends { result.1 ≡ ends_with_head read.framing }
    ensures after { client.new ≡ record client.old { ahead = drop read.len client.old.ahead } }
{
    client.consume(read.len);
    (read.head, ends_with_head(read.framing))
}

/// Whether a request with that framing ends with its head.
pub(crate) fn ends_with_head(framing: Framing) -> bool
    ensures { result ≡ ends_with_head framing }
{
    match framing {
        Framing::Empty => true,
        Framing::Length(n) => n == 0,
        Framing::Chunked | Framing::UntilClose | Framing::Tunnel => false,
    }
}

/// One read of the link for more of the head.
fn await_head<D: ByteLink, U>(
    alloc: Global,
    client: &mut Connection<D, U>,
) -> Took<(RequestHeader, bool)>
    requires { IsOpen client.old.ahead }
    ensures answer { ReadsHead (D.state client.old.link) (D.state client.new.link)
        client.old.ahead client.new.ahead result }
    ensures start { D.start client.new.link ≡ D.start client.old.link }
{
    match client.read_more() {
        Ok(Got::Bytes(_)) => find_head(alloc, client),
        Ok(Got::NotReady) => Took::Waited(Pause::NotReady),
        Ok(Got::Silent) => Took::Waited(Pause::Silent),
        Ok(Got::End) => end_of_head(client.ahead()),
        Ok(Got::Failed(fault)) => Took::Failed(Fail::Error(Error::of_fault(fault).into_down())),
        Err(_) => Took::Failed(Fail::OutOfMemory),
    }
}

/// The head at the front of the bytes ahead, where it stands.
fn find_head<D, U>(alloc: Global, client: &mut Connection<D, U>) -> Took<(RequestHeader, bool)>
    ensures answer { FindsHead client.old.ahead client.new.ahead result }
    ensures same { client.new ≡ record client.old { ahead = client.new.ahead } }
{
    match client.judge_request(alloc) {
        Ok(Some(read)) => Took::Item(take_head(client, read)),
        Ok(None) => Took::More,
        Err(fail) => Took::Failed(fail),
    }
}

/// The answer where the client ended behind these bytes of a head.
fn end_of_head(came: &[u8]) -> Took<(RequestHeader, bool)>
    ensures { result ≡ end_of_head came.now }
{
    if came.is_empty() {
        return Took::End;
    }
    Took::Failed(Fail::Error(closed(Context::ClientClosed)))
}

/// The client's connection is of no more use, for that reason.
fn closed(why: Context) -> Error
    ensures { result ≡ closed_for why }
{
    Error::explain(ErrorType::ConnectionClosed, why).into_down()
}

/// One read of the link for more of a body that has not ended.
fn await_piece<D: ByteLink, U>(
    alloc: Global,
    client: &mut Connection<D, U>,
    body: &mut BodyReader,
) -> Took<(Bytes, bool)>
    requires { is_done body.old ≡ false }
    ensures answer { ReadsBody (Unit {0}) (D.state client.old.link) (D.state client.new.link)
        body.old body.new client.old.ahead client.new.ahead result }
    ensures start { D.start client.new.link ≡ D.start client.old.link }
{
    match client.read_more() {
        Ok(Got::Bytes(_)) => find_piece(alloc, client, body),
        Ok(Got::NotReady) => Took::Waited(Pause::NotReady),
        Ok(Got::Silent) => Took::Waited(Pause::Silent),
        Ok(Got::End) => end_of_body(body),
        Ok(Got::Failed(fault)) => Took::Failed(Fail::Error(Error::of_fault(fault).into_down())),
        Err(_) => Took::Failed(Fail::OutOfMemory),
    }
}

/// A piece of the body out of the bytes ahead, where they hold one.
fn find_piece<D, U>(
    alloc: Global,
    client: &mut Connection<D, U>,
    body: &mut BodyReader,
) -> Took<(Bytes, bool)>
    ensures answer { FindsPiece body.old body.new client.old.ahead client.new.ahead result }
    ensures same { client.new ≡ record client.old { ahead = client.new.ahead } }
{
    match client.take_body(alloc, body) {
        Cut::Piece(piece, ends) => Took::Item((piece, ends)),
        Cut::End => Took::End,
        Cut::More => Took::More,
        Cut::Failed(fail) => Took::Failed(of_client(fail)),
    }
}

/// The failure, as one of the client's side.
fn of_client(fail: Fail) -> Fail
    ensures { result ≡ fail_from fail ErrorSource.Downstream }
{
    match fail {
        Fail::OutOfMemory => Fail::OutOfMemory,
        Fail::Error(error) => Fail::Error(error.into_down()),
    }
}

/// The answer where the client ended inside a body.
fn end_of_body(body: &mut BodyReader) -> Took<(Bytes, bool)>
    ensures { EndsInBody body.old body.new result }
{
    match body.end_of_stream() {
        Ok(()) => Took::End,
        Err(_) => Took::Failed(Fail::Error(closed(Context::ClientClosed))),
    }
}

/// One look at a client that is to be still.
fn watch<D: ByteLink, U>(client: &mut Connection<D, U>) -> Took<(Bytes, bool)>
    ensures answer { Watches (D.state client.old.link) (D.state client.new.link)
        client.old.ahead client.new.ahead result }
    ensures start { D.start client.new.link ≡ D.start client.old.link }
{
    if !client.ahead().is_empty() {
        return Took::Failed(Fail::Error(closed(Context::ClientSentMore)));
    }
    match client.read_more() {
        Ok(Got::Bytes(_)) => Took::Failed(Fail::Error(closed(Context::ClientSentMore))),
        Ok(Got::NotReady) => Took::Waited(Pause::NotReady),
        Ok(Got::Silent) => Took::Waited(Pause::Silent),
        Ok(Got::End) => Took::Failed(Fail::Error(closed(Context::ClientClosed))),
        Ok(Got::Failed(fault)) => Took::Failed(Fail::Error(Error::of_fault(fault).into_down())),
        Err(_) => Took::Failed(Fail::OutOfMemory),
    }
}

//! How the response of a peer is read: the informational heads, the final head, and its body
//! piece by piece (RFC 9110, section 15.2; RFC 9112, sections 4 to 8).
ghost use Rattle.std.specs.Prelude.{◌≡◌, ◌==◌, ℕ, List, [], Bool, true, false, length};
ghost use Rattle.relay_links.specs.Count.{up};
ghost use Rattle.relay_h1.specs.BodyWire.{says_end};
ghost use Rattle.relay_peer.specs.ResponseReading.{ToldResponse, ReadAt, OpenAt, IsAwaitingHead, lets_keep, is_http_11, step_over, Finds, FindsAtEnd, ReadsTask, ReadsOn, FindsAgain, EndsThere, FoundCuts, AnswerCuts, is_wait, is_item, is_task, cut_off_error, is_over, may_keep_reading};

use http::{Method, Version};
use relay_h1::{Ahead, BodyReader, Cut, Framing, closes, judge_response};
use relay_links::{ByteLink, Got};
use relay_tasks::{
    Context, Error, ErrorType, Fail, HttpTask, Pause, ResponseHeader, RetryType, Took,
};
use std::alloc::Global;
use std::mem;

/// A body that has not ended: where it is read, and whether its head and framing let the link be
/// kept.
#[derive(Drop)]
pub(crate) struct OpenBody {
    pub(crate) reader: BodyReader,
    pub(crate) keeps: bool,
}

/// Where the reading of a response is.
#[derive(Drop)]
pub(crate) enum ResponsePlace {
    /// No head was read.
    NoHead,
    /// Informational heads were read.
    Informed,
    /// The final head was read, and its body has not ended.
    InBody(OpenBody),
    /// The response has ended. Its head and framing let the link be kept, or not.
    Ended(bool),
}

/// What stands at the front of the bytes ahead.
#[derive(Drop)]
pub(crate) enum Found {
    /// A task, which was taken.
    Task(HttpTask),
    /// Not enough to tell.
    Nothing,
    /// The response has ended before.
    End,
    /// What is refused, or memory is wanted.
    Failed(Fail),
}

/// Where the reading is behind what was found.
#[derive(Drop)]
pub(crate) struct ReadingStep {
    pub(crate) place: ResponsePlace,
    pub(crate) found: Found,
}

/// The reading of one response.
#[derive(Drop)]
pub(crate) struct ResponseReading {
    pub(crate) place: ResponsePlace,
    pub(crate) ahead: Ahead,
}

impl ResponseReading {
    pub(crate) fn new(alloc: Global) -> ResponseReading
        ensures place { result.place ≡ ResponsePlace.NoHead }
        ensures ahead { result.ahead ≡ [] }
    {
        ResponseReading {
            place: ResponsePlace::NoHead,
            ahead: Ahead::new(alloc),
        }
    }

    /// Reads into that buffer from now on, and leaves its own in its place, where neither has bytes
    /// ahead. What can be seen of both stays as it was.
    pub(crate) fn swap_room(&mut self, room: &mut Ahead)
        ensures same { self.new ≡ self.old }
        ensures room { room.new ≡ room.old }
    {
        if self.ahead.is_empty() && room.is_empty() {
            mem::swap(&mut self.ahead, room);
        }
    }

    /// The next task of the response to that method: one that stands ahead, or else one that stands
    /// there after one read of the link.
    pub(crate) fn read_task<L: ByteLink>(
        &mut self,
        alloc: Global,
        method: &Method,
        upgrade: bool,
        link: &mut L,
    ) -> Took<HttpTask>
        ensures reads { ReadsTask method.now upgrade (L.state link.old) (L.state link.new) self.old
            self.new result }
        ensures start { L.start link.new ≡ L.start link.old }
        ensures waits { result ≡ Took.Waited Pause.NotReady
            → (L.state link.new).waits ≡ up (L.state link.old).waits }
        ensures used { result ≡ Took.Waited Pause.NotReady
            → (L.state link.new).used ≡ up (L.state link.old).used }
        ensures silent { result ≡ Took.Waited Pause.Silent
            → (L.state link.new ≡ L.state link.old)
            × ((L.state link.new).silent_on_read ≡ true) }
        ensures ends { is_item result ≡ false
            → is_over self.new.place ≡ is_over self.old.place }
    {
        match self.find(alloc, method, upgrade) {
            Found::Task(task) => Took::Item(task),
            Found::Nothing => self.read_on(alloc, method, upgrade, link),
            Found::End => Took::End,
            Found::Failed(fail) => Took::Failed(fail),
        }
    }

    /// What stands ahead; a task is taken.
    fn find(&mut self, alloc: Global, method: &Method, upgrade: bool) -> Found
        ensures ends { is_task result ≡ false
            → is_over self.new.place ≡ is_over self.old.place }
        ensures rests { is_over self.old.place ≡ true
            → (result ≡ Found.End) × (self.new ≡ self.old) }
        ensures cuts { FoundCuts self.old.place self.new.place self.old.ahead self.new.ahead
            result }
        ensures finds { (closed : Bool) (given : List ℕ) (told : ToldResponse)
            → ReadAt method.now upgrade closed given told self.old.place self.old.ahead
            → Finds method.now upgrade closed given told self.old.place self.new.place
            self.new.ahead result }
    {
        let place = mem::replace(&mut self.place, ResponsePlace::NoHead);
        let step = find(alloc, method, upgrade, place, &mut self.ahead);
        self.place = step.place;
        step.found
    }

    /// One read of the link, where nothing stands ahead.
    fn read_on<L: ByteLink>(
        &mut self,
        alloc: Global,
        method: &Method,
        upgrade: bool,
        link: &mut L,
    ) -> Took<HttpTask>
        ensures reads { ReadsOn method.now upgrade (L.state link.old) (L.state link.new) self.old
            self.new result }
        ensures start { L.start link.new ≡ L.start link.old }
        ensures waits { result ≡ Took.Waited Pause.NotReady
            → (L.state link.new).waits ≡ up (L.state link.old).waits }
        ensures used { result ≡ Took.Waited Pause.NotReady
            → (L.state link.new).used ≡ up (L.state link.old).used }
        ensures silent { result ≡ Took.Waited Pause.Silent
            → (L.state link.new ≡ L.state link.old)
            × ((L.state link.new).silent_on_read ≡ true) }
        ensures ends { is_item result ≡ false
            → is_over self.new.place ≡ is_over self.old.place }
    {
        match self.ahead.read_from(link) {
            Err(_) => Took::Failed(Fail::OutOfMemory),
            Ok(Got::Bytes(_)) => self.find_again(alloc, method, upgrade),
            Ok(Got::NotReady) => Took::Waited(Pause::NotReady),
            Ok(Got::Silent) => Took::Waited(Pause::Silent),
            Ok(Got::End) => self.end(),
            Ok(Got::Failed(fault)) => Took::Failed(Fail::Error(Error::of_fault(fault).into_up())),
        }
    }

    /// What stands ahead after bytes came.
    fn find_again(&mut self, alloc: Global, method: &Method, upgrade: bool) -> Took<HttpTask>
        ensures waits { is_wait result ≡ false }
        ensures stays { is_item result ≡ false
            → is_over self.new.place ≡ is_over self.old.place }
        ensures finds { (closed : Bool) (given : List ℕ) (told : ToldResponse)
            → ReadAt method.now upgrade closed given told self.old.place self.old.ahead
            → FindsAgain method.now upgrade closed given told self.old.place self.new result }
        ensures cuts { AnswerCuts self.old.place self.old.ahead result self.new.ahead }
    {
        match self.find(alloc, method, upgrade) {
            Found::Task(task) => Took::Item(task),
            Found::Nothing => Took::More,
            Found::End => Took::End,
            Found::Failed(fail) => Took::Failed(fail),
        }
    }

    /// No byte comes any more, and nothing stands ahead: what lasts until the link ends has ended.
    fn end(&mut self) -> Took<HttpTask>
        ensures waits { is_wait result ≡ false }
        ensures stays { is_item result ≡ false
            → is_over self.new.place ≡ is_over self.old.place }
        ensures ends { (method : List ℕ) (upgrade : Bool) (given : List ℕ) (told : ToldResponse)
            → OpenAt method upgrade given told self.old.place self.old.ahead
            → EndsThere method upgrade given told self.new result }
        ensures cuts { (bytes rest : List ℕ) → AnswerCuts self.old.place bytes result rest }
    {
        let place = mem::replace(&mut self.place, ResponsePlace::NoHead);
        let step = end_of_link(place, self.ahead.is_empty());
        self.place = step.place;
        match step.found {
            Found::Task(task) => Took::Item(task),
            Found::Nothing => Took::More,
            Found::End => Took::End,
            Found::Failed(fail) => Took::Failed(fail),
        }
    }

    /// Whether the response has ended, with no byte read past it, and lets its link be kept.
    pub(crate) fn may_keep(&self) -> bool
        ensures { result ≡ may_keep_reading self.now }
    {
        match &self.place {
            ResponsePlace::Ended(keeps) => *keeps && self.ahead.is_empty(),
            ResponsePlace::NoHead | ResponsePlace::Informed | ResponsePlace::InBody(_) => false,
        }
    }
}

/// What stands ahead, and the place behind it.
fn find(
    alloc: Global,
    method: &Method,
    upgrade: bool,
    place: ResponsePlace,
    ahead: &mut Ahead,
) -> ReadingStep
    ensures ends { is_task result.found ≡ false → is_over result.place ≡ is_over place }
    ensures rests { is_over place ≡ true
        → (result ≡ record { place = place; found = Found.End }) × (ahead.new ≡ ahead.old) }
    ensures cuts { FoundCuts place result.place ahead.old ahead.new result.found }
    ensures finds { (closed : Bool) (given : List ℕ) (told : ToldResponse)
        → ReadAt method.now upgrade closed given told place ahead.old
        → Finds method.now upgrade closed given told place result.place ahead.new result.found }
{
    match place {
        ResponsePlace::NoHead => { find_head(alloc, method, upgrade, ResponsePlace::NoHead, ahead) }
        ResponsePlace::Informed => {
            find_head(alloc, method, upgrade, ResponsePlace::Informed, ahead)
        }
        ResponsePlace::InBody(body) => find_piece(alloc, body, ahead),
        ResponsePlace::Ended(keeps) => ReadingStep {
            place: ResponsePlace::Ended(keeps),
            found: Found::End,
        },
    }
}

/// The head that stands ahead.
fn find_head(
    alloc: Global,
    method: &Method,
    upgrade: bool,
    place: ResponsePlace,
    ahead: &mut Ahead,
) -> ReadingStep
    requires { IsAwaitingHead place }
    ensures ends { is_task result.found ≡ false → is_over result.place ≡ is_over place }
    ensures cuts { FoundCuts place result.place ahead.old ahead.new result.found }
    ensures finds { (closed : Bool) (given : List ℕ) (told : ToldResponse)
        → ReadAt method.now upgrade closed given told place ahead.old
        → Finds method.now upgrade closed given told place result.place ahead.new result.found }
{
    match judge_response(alloc, ahead, method, upgrade) {
        Ok(Some(read)) => {
            ahead.consume(read.len);
            step_over(read.head, read.framing)
        }
        Ok(None) => ReadingStep {
            place,
            found: Found::Nothing,
        },
        Err(fail) => ReadingStep {
            place,
            found: Found::Failed(fail),
        },
    }
}

/// The step over a head, which carries the end where its body has ended at once.
fn step_over(head: ResponseHeader, framing: Framing) -> ReadingStep
    ensures { result ≡ step_over head framing }
{
    if head.is_informational() {
        return ReadingStep {
            place: ResponsePlace::Informed,
            found: Found::Task(HttpTask::Header(head, false)),
        };
    }
    let keeps = lets_keep(&head, framing);
    let reader = BodyReader::new(framing);
    if reader.is_done() {
        return ReadingStep {
            place: ResponsePlace::Ended(keeps),
            found: Found::Task(HttpTask::Header(head, true)),
        };
    }
    ReadingStep {
        place: ResponsePlace::InBody(OpenBody { reader, keeps }),
        found: Found::Task(HttpTask::Header(head, false)),
    }
}

/// The piece of a body, or its end, that stands ahead.
fn find_piece(alloc: Global, mut body: OpenBody, ahead: &mut Ahead) -> ReadingStep
    ensures ends { is_task result.found ≡ false → is_over result.place ≡ false }
    ensures cuts { FoundCuts (ResponsePlace.InBody body) result.place ahead.old ahead.new
        result.found }
    ensures finds { (method : List ℕ) (upgrade closed : Bool) (given : List ℕ) (told : ToldResponse)
        → ReadAt method upgrade closed given told (ResponsePlace.InBody body) ahead.old
        → Finds method upgrade closed given told
        (ResponsePlace.InBody body) result.place ahead.new result.found }
{
    match body.reader.take(alloc, ahead) {
        Cut::Piece(piece, true) => ReadingStep {
            place: ResponsePlace::Ended(body.keeps),
            found: Found::Task(HttpTask::Body(Some(piece), true)),
        },
        Cut::Piece(piece, false) => ReadingStep {
            place: ResponsePlace::InBody(body),
            found: Found::Task(HttpTask::Body(Some(piece), false)),
        },
        Cut::End => ReadingStep {
            place: ResponsePlace::Ended(body.keeps),
            found: Found::Task(HttpTask::Done),
        },
        Cut::More => ReadingStep {
            place: ResponsePlace::InBody(body),
            found: Found::Nothing,
        },
        Cut::Failed(Fail::OutOfMemory) => ReadingStep {
            place: ResponsePlace::InBody(body),
            found: Found::Failed(Fail::OutOfMemory),
        },
        Cut::Failed(Fail::Error(error)) => ReadingStep {
            place: ResponsePlace::InBody(body),
            found: Found::Failed(Fail::Error(error.into_up())),
        },
    }
}

/// The place where a link ended, and the end or the error that follows from it.
fn end_of_link(place: ResponsePlace, none_ahead: bool) -> ReadingStep
    ensures stays { is_task result.found ≡ false → is_over result.place ≡ is_over place }
    ensures ends { (method : List ℕ) (upgrade : Bool) (given : List ℕ) (told : ToldResponse)
        (ahead : List ℕ)
        → OpenAt method upgrade given told place ahead → none_ahead ≡ (length ahead == 0)
        → FindsAtEnd method upgrade given told result.place ahead result.found }
    ensures cuts { (bytes rest : List ℕ) → FoundCuts place result.place bytes rest result.found }
{
    match place {
        ResponsePlace::NoHead => cut_off(ResponsePlace::NoHead, none_ahead),
        ResponsePlace::Informed => cut_off(ResponsePlace::Informed, false),
        ResponsePlace::InBody(body) => end_of_body(body),
        ResponsePlace::Ended(keeps) => ReadingStep {
            place: ResponsePlace::Ended(keeps),
            found: Found::End,
        },
    }
}

/// The same inside a body.
fn end_of_body(mut body: OpenBody) -> ReadingStep
    ensures stays { is_task result.found ≡ false → is_over result.place ≡ false }
    ensures ends { (method : List ℕ) (upgrade : Bool) (given : List ℕ) (told : ToldResponse)
        (ahead : List ℕ)
        → OpenAt method upgrade given told (ResponsePlace.InBody body) ahead
        → FindsAtEnd method upgrade given told result.place ahead result.found }
    ensures cuts { (bytes rest : List ℕ)
        → FoundCuts (ResponsePlace.InBody body) result.place bytes rest result.found }
{
    match body.reader.end_of_stream() {
        Ok(()) => ReadingStep {
            place: ResponsePlace::Ended(body.keeps),
            found: Found::Task(HttpTask::Done),
        },
        Err(_) => cut_off(ResponsePlace::InBody(body), false),
    }
}

/// The link ended inside the response. Another attempt may help where no byte had come.
fn cut_off(place: ResponsePlace, none_came: bool) -> ReadingStep
    ensures stays { result.place ≡ place }
    ensures cuts { (bytes rest : List ℕ) → FoundCuts place result.place bytes rest result.found }
    ensures fails { (given : List ℕ) → none_came ≡ (length given == 0)
        → result ≡ record {
          place = place;
          found = Found.Failed (Fail.Error (cut_off_error given));
        } }
{
    let about = Context::UpstreamClosed;
    let mut error = Error::explain(ErrorType::ConnectionClosed, about).into_up();
    if none_came {
        error.retry = RetryType::ReusedOnly;
    }
    ReadingStep {
        place,
        found: Found::Failed(Fail::Error(error)),
    }
}

/// Whether the head and the framing of a response let its link be kept.
fn lets_keep(head: &ResponseHeader, framing: Framing) -> bool
    ensures { result ≡ lets_keep head.now framing }
{
    is_http_11(head.version()) && (says_end(framing) && !closes(head.headers()))
}

fn is_http_11(version: Version) -> bool
    ensures { result ≡ is_http_11 version }
{
    version == Version::HTTP_11
}

fn says_end(framing: Framing) -> bool
    ensures { result ≡ says_end framing }
{
    match framing {
        Framing::Empty | Framing::Length(_) | Framing::Chunked => true,
        Framing::UntilClose | Framing::Tunnel => false,
    }
}

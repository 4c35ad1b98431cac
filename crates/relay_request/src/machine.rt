//! The machine of one request: its phases, and what a turn makes of one.
//!
//! ```text
//! ReadHead -> Connect -> Prepare -> Relay -> Close -> Ended (relayed)
//!    |         |    |        |        |
//!    |         | (a hook,    |        +-> Broken (the exchange failed)
//!    |         |  or again)  +-> Broken (no head was sent)
//!    |         +-> Answer -> Ended (hooks ended it)
//!    |         +-> Unlinked -> Answer -> Ended (no link was given, and none is asked for again)
//!    |         +-> Broken (a hook failed that was told of the link)
//!    |                 +-> Fail -> Answer -> Ended (the application treated the error)
//!    |                 +-> Again -> Connect (and another attempt follows)
//!    +-> Answer -> Ended (the head was turned down)
//!    +-> Ended (nothing asked, nothing relayed)
//! ```

ghost use Rattle.std.specs.Prelude.{◌≡◌, true};
ghost use Rattle.relay_request.specs.Calls.{goes_back_in};
ghost use Rattle.relay_request.specs.Relaying.{is_relaying, is_closing};
ghost use Rattle.relay_request.specs.Turn.{is_over, is_reading_head};

use crate::outcome::Outcome;
use crate::owed::Owed;
use crate::record::{AttemptList, AttemptRoom};
use crate::work::Work;
use relay_hooked::HookedExchange;
use relay_session::HttpSession;
use relay_tasks::{Error, Pause, Peer};
use std::mem;

/// What one turn of a request did.
#[derive(Clone, Copy, Debug, PartialEq, Eq)]
pub enum RunStep {
    /// Something moved.
    Moved,
    /// Nothing moved: the link that was asked is not ready, or all that were asked are silent.
    Waited(Pause),
    /// The request has ended.
    Ended,
}

/// What is known of a link that the connector gave, beside the link: for whom it was asked, twice,
/// since it goes back with its peer and is recorded with it; whether it had been used before; and
/// room for the record of its attempt.
#[derive(Drop)]
pub struct Lease {
    pub peer: Peer,
    pub recorded: Peer,
    pub reused: bool,
    pub room: AttemptRoom,
}

/// An attempt at a request: its exchange, which has the link. It is large, so its phase holds it
/// behind a pointer, and a turn works on it where it stands.
pub struct Attempt<L, C> {
    pub exchange: HookedExchange<L>,
    pub lease: Lease,
    pub context: C,
}

/// Where a request stands.
pub enum Phase<L, C> {
    /// The client's head is read.
    ReadHead,
    /// The head was accepted. The hooks before the attempts are called one a turn, and the one that
    /// names a peer; then a link to it is wanted for the session that begins behind the head. These
    /// attempts were given none, and another may follow.
    Connect(C, Box<HttpSession>, AttemptList),
    /// The last of these attempts was given no link, and no other follows. That is its error, as
    /// the application treated it, which is to be answered.
    Unlinked(C, Box<HttpSession>, AttemptList, Error),
    /// A link was given, of which nothing was asked yet, and the head is to be filtered and sent.
    Prepare(C, Box<HttpSession>, L, Lease),
    /// The request is sent, and the response comes back, over the attempt's link.
    Relay(Box<Attempt<L, C>>),
    /// The attempt failed with that error, which the application is to treat. Its link is held, and
    /// is kept then or not.
    Broken(C, Box<HttpSession>, L, Lease, bool, Error),
    /// The error of the attempt was treated, and is that one: its link is to be handed back with
    /// that mark, and another attempt follows.
    Again(C, Box<HttpSession>, L, Lease, bool, Error),
    /// The error of the attempt was treated, and is that one: its link is to be handed back with
    /// that mark, and what waits in the session is to be written.
    Fail(L, Lease, bool, Box<HttpSession>, Error),
    /// The request has ended, and its link is to be handed back.
    Close(L, Lease, bool, Outcome),
    /// What waits in the session is written, a generated answer last; no link is held.
    Answer(Box<HttpSession>, Owed, AttemptList),
    /// The request has ended.
    Ended(Outcome, AttemptList),
}

/// One request under way: its phase, how many calls of the client's link had failed when it began,
/// and what it took so far.
pub struct Machine<L, C> {
    pub phase: Phase<L, C>,
    pub first: u64,
    /// The turns that were counted: those that used a link or did other work.
    pub turns: u64,
    pub work: Work,
}

impl<L, C> Machine<L, C> {
    /// A request of which nothing was read, on a link of which so many calls have failed.
    pub fn new(first: u64) -> Machine<L, C>
        ensures { result ≡ record {
          phase = Phase.ReadHead;
          first = first;
          turns = 0;
          work = Work.NONE;
        } }
    {
        Machine {
            phase: Phase::ReadHead,
            first,
            turns: 0,
            work: Work::NONE,
        }
    }
}

impl<L, C> Phase<L, C> {
    /// Whether the client's head is still read.
    pub fn is_reading_head(&self) -> bool
        ensures { result ≡ is_reading_head self.now }
    {
        match self {
            Phase::ReadHead => true,
            Phase::Connect(_, _, _) | Phase::Unlinked(_, _, _, _) => false,
            Phase::Prepare(_, _, _, _) | Phase::Relay(_) => false,
            Phase::Broken(_, _, _, _, _, _) | Phase::Again(_, _, _, _, _, _) => false,
            Phase::Fail(_, _, _, _, _) | Phase::Close(_, _, _, _) => false,
            Phase::Answer(_, _, _) | Phase::Ended(_, _) => false,
        }
    }

    /// Whether the exchange of an attempt is under way.
    pub fn is_relaying(&self) -> bool
        ensures { result ≡ is_relaying self.now }
    {
        match self {
            Phase::Relay(_) => true,
            Phase::ReadHead | Phase::Connect(_, _, _) | Phase::Prepare(_, _, _, _) => false,
            Phase::Unlinked(_, _, _, _) | Phase::Broken(_, _, _, _, _, _) => false,
            Phase::Again(_, _, _, _, _, _) => false,
            Phase::Fail(_, _, _, _, _) | Phase::Close(_, _, _, _) => false,
            Phase::Answer(_, _, _) | Phase::Ended(_, _) => false,
        }
    }

    /// Whether a link is to be handed back.
    pub fn is_closing(&self) -> bool
        ensures { result ≡ is_closing self.now }
    {
        match self {
            Phase::Again(_, _, _, _, _, _) => true,
            Phase::Fail(_, _, _, _, _) | Phase::Close(_, _, _, _) => true,
            Phase::ReadHead | Phase::Connect(_, _, _) | Phase::Prepare(_, _, _, _) => false,
            Phase::Relay(_) | Phase::Broken(_, _, _, _, _, _) => false,
            Phase::Unlinked(_, _, _, _) | Phase::Answer(_, _, _) | Phase::Ended(_, _) => false,
        }
    }

    /// Whether the request has ended, but for the hooks of its end.
    pub fn is_over(&self) -> bool
        ensures { result ≡ is_over self.now }
    {
        match self {
            Phase::Close(_, _, _, _) | Phase::Ended(_, _) => true,
            Phase::ReadHead | Phase::Connect(_, _, _) | Phase::Prepare(_, _, _, _) => false,
            Phase::Relay(_) | Phase::Broken(_, _, _, _, _, _) => false,
            Phase::Again(_, _, _, _, _, _) => false,
            Phase::Fail(_, _, _, _, _) | Phase::Answer(_, _, _) => false,
            Phase::Unlinked(_, _, _, _) => false,
        }
    }

    /// Whether the client of a request that was served may ask for more.
    pub fn goes_back(&self) -> Option<bool>
        ensures { result ≡ goes_back_in self.now }
    {
        match self {
            Phase::Ended(Outcome::Served { error: _, reuse }, _) => Some(*reuse),
            Phase::Ended(Outcome::NoRequest | Outcome::Refused { .. }, _) => None,
            Phase::Ended(Outcome::TurnLimit | Outcome::OutOfMemory, _) => None,
            Phase::ReadHead | Phase::Connect(_, _, _) | Phase::Prepare(_, _, _, _) => None,
            Phase::Relay(_) | Phase::Broken(_, _, _, _, _, _) => None,
            Phase::Again(_, _, _, _, _, _) => None,
            Phase::Fail(_, _, _, _, _) | Phase::Close(_, _, _, _) | Phase::Answer(_, _, _) => None,
            Phase::Unlinked(_, _, _, _) => None,
        }
    }

    /// Takes the attempt out of a phase that relays. Nothing is held then.
    pub fn take_attempt(&mut self) -> Box<Attempt<L, C>>
        requires { is_relaying self.old ≡ true }
        ensures taken { self.old ≡ Phase.Relay result }
        ensures left { self.new ≡ Phase.ReadHead }
    {
        match mem::replace(self, Phase::ReadHead) {
            Phase::Relay(attempt) => attempt,
            Phase::ReadHead => unreachable!(),
            Phase::Connect(_context, _session, _tries) => unreachable!(),
            Phase::Unlinked(_context, _session, _attempts, _error) => unreachable!(),
            Phase::Prepare(_context, _session, _link, _lease) => unreachable!(),
            Phase::Broken(_context, _session, _link, _lease, _keep, _error) => unreachable!(),
            Phase::Again(_context, _session, _link, _lease, _keep, _error) => unreachable!(),
            Phase::Fail(_link, _lease, _keep, _session, _error) => unreachable!(),
            Phase::Close(_link, _lease, _keep, _outcome) => unreachable!(),
            Phase::Answer(_session, _owed, _attempts) => unreachable!(),
            Phase::Ended(_outcome, _attempts) => unreachable!(),
        }
    }

    /// Puts a phase in the place of one in which nothing is held.
    pub fn put(&mut self, phase: Phase<L, C>)
        requires { self.old ≡ Phase.ReadHead }
        ensures { self.new ≡ phase }
    {
        match mem::replace(self, phase) {
            Phase::ReadHead => {}
            Phase::Connect(_context, _session, _tries) => unreachable!(),
            Phase::Unlinked(_context, _session, _attempts, _error) => unreachable!(),
            Phase::Prepare(_context, _session, _link, _lease) => unreachable!(),
            Phase::Relay(_attempt) => unreachable!(),
            Phase::Broken(_context, _session, _link, _lease, _keep, _error) => unreachable!(),
            Phase::Again(_context, _session, _link, _lease, _keep, _error) => unreachable!(),
            Phase::Fail(_link, _lease, _keep, _session, _error) => unreachable!(),
            Phase::Close(_link, _lease, _keep, _outcome) => unreachable!(),
            Phase::Answer(_session, _owed, _attempts) => unreachable!(),
            Phase::Ended(_outcome, _attempts) => unreachable!(),
        }
    }

    /// Goes on to the next phase, where nothing is held.
    pub fn go_on(&mut self, next: Next<L, C>) -> Did
        requires { self.old ≡ Phase.ReadHead }
        ensures phase { self.new ≡ next.phase }
        ensures step { result.step ≡ next.step }
        ensures work { result.work ≡ next.work }
    {
        let Next { phase, step, work } = next;
        self.put(phase);
        Did { step, work }
    }
}

/// What a turn made of a phase that it took.
pub struct Next<L, C> {
    pub phase: Phase<L, C>,
    pub step: RunStep,
    pub work: Work,
}

/// What a turn did with a phase where it stands.
#[derive(Clone, Copy)]
pub struct Did {
    pub step: RunStep,
    pub work: Work,
}

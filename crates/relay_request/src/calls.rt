//! The calls of an application for one request: what its hooks are shown, the log of their calls,
//! and which of them comes next (RFC 9110, section 3.7).
ghost use Rattle.std.specs.Prelude.{◌≡◌, ◌⊎◌, ◌+◌, [], false, true, length, None, IfOk, IfSome, IsOkUnless, IsSome, IsTrue, OnErr, OnOk, is_some, if◌then◌else◌};
ghost use Rattle.relay_session.specs.Reading.{head_of};
ghost use Rattle.relay_session.specs.Response.{has_head};
ghost use Rattle.relay_opening.specs.Place.{is_open};
ghost use Rattle.relay_phases.specs.Order.{Station, accepted, made, named};
ghost use Rattle.relay_phases.specs.Turns.{HasCalled, QueuesNothing};
ghost use Rattle.relay_tasks.specs.declared.hook.Hook.{Hook};
ghost use Rattle.relay_trying.specs.Trying.{FiltersHead, TellsConnected, Treats, may_break};
ghost use Rattle.relay_closing.specs.Place.{begun, is_lost, may_fail};
ghost use Rattle.relay_purging.specs.Asked.{IsAsked};
ghost use Rattle.relay_purging.specs.Purging.{PurgesTo};
ghost use Rattle.relay_request.specs.Calls.{AreMadeAt, AreMadeBy, CallsLast, CallsNext, CountsCalls, HasAnswered, HasBegun, TakesNext, allowed_by, closed_with, ended_with, final_at, given_at, has_last, is_calling, is_closing_at, is_lost_at, kept_at, leads_at, leads_to, log_of, purge_at, seen_with, treated_at};

use crate::closing_hooks::{calls_next, failed_with, given, kept_in};
use crate::outcome::Outcome;
use crate::work::Work;
use relay_closing as closing;
use relay_closing::begin_closing;
use relay_hooks::{HttpModule, ProxyHttp, Session};
use relay_links::Purger;
use relay_opening::{End, Place, begin_opening, take_turn};
use relay_purging::{End as Purged, ask_action, purge};
use relay_session::HttpSession;
use relay_tasks::{Error, Fail, Peer, PhaseLog, PurgeAction, RequestHeader, Result};
use relay_trying::{
    filter_head, name_peer, summarize, tell_connected, treat_failure, treat_refusal, warn,
};
use std::alloc::Global;
use std::mem;

/// Which hook comes next.
#[derive(Drop)]
pub enum At<K, C> {
    /// None was called, and that value was kept from the request before on the connection.
    Kept(Option<K>),
    /// The hooks before the attempts stand there; behind the last of them a peer is asked for.
    Opening(Place<K>),
    /// The request is a purge, which does that, and the purger is asked for it.
    Purging(PurgeAction),
    /// That peer was named, and the connector is asked for a link to it.
    Named(Peer),
    /// The connector gave none. Another attempt follows, and it is asked whether the error of this
    /// one, as it was treated, is not to be written as a warning.
    Repeatable(Error),
    /// The warning is to be written, and the request is asked for in one line.
    Warning,
    /// The application was told of the link, and the head is to be filtered.
    Linked,
    /// The error of an attempt was treated, and is that one: it is to be answered.
    Treated(Error),
    /// The hooks of the end of the request stand there, and are called with that context.
    Closing(C, closing::Place<K>),
}

impl<K: Drop, C: Drop> At<K, C> {
    /// What the last call led to.
    fn leads(&self) -> Opened
        ensures { result ≡ leads_at self.now }
    {
        match self {
            At::Kept(_) => Opened::OutOfMemory,
            At::Opening(place) => leads_to(place),
            At::Purging(_) | At::Named(_) => Opened::GoesOn,
            At::Repeatable(_) | At::Warning => Opened::GoesOn,
            At::Linked => Opened::GoesOn,
            At::Treated(_) | At::Closing(_, _) => Opened::OutOfMemory,
        }
    }

    /// Whether a hook is called next without the connector.
    fn is_calling(&self) -> bool
        ensures { result ≡ is_calling self.now }
    {
        match self {
            At::Opening(Place::Behind(_) | Place::Ended(End::Attempts | End::Purge)) => true,
            At::Opening(Place::Ended(End::Answered | End::Declined)) => false,
            At::Opening(Place::Ended(End::Unwritten(_) | End::Failed(_)) | Place::Lost) => false,
            At::Repeatable(_) | At::Warning => true,
            At::Kept(_) | At::Purging(_) | At::Named(_) | At::Linked => false,
            At::Treated(_) | At::Closing(_, _) => false,
        }
    }

    /// The error of a hook before the attempts, which is to be answered.
    fn final_error(&self) -> Option<Error>
        ensures { result ≡ final_at self.now }
    {
        match self {
            At::Opening(Place::Ended(End::Failed(error))) => Some(*error),
            At::Opening(Place::Ended(End::Attempts | End::Answered | End::Purge)) => None,
            At::Opening(Place::Ended(End::Declined | End::Unwritten(_))) => None,
            At::Opening(Place::Behind(_) | Place::Lost) => None,
            At::Kept(_) | At::Purging(_) | At::Named(_) | At::Repeatable(_) => None,
            At::Warning | At::Linked | At::Treated(_) | At::Closing(_, _) => None,
        }
    }

    /// What a purge does, where the purger is asked for it next.
    fn purge(&self) -> Option<PurgeAction>
        ensures { result ≡ purge_at self.now }
    {
        match self {
            At::Purging(action) => Some(*action),
            At::Kept(_) | At::Opening(_) | At::Named(_) | At::Repeatable(_) => None,
            At::Warning | At::Linked | At::Treated(_) | At::Closing(_, _) => None,
        }
    }

    /// The error of an attempt as it was treated, which is to be answered.
    fn treated(&self) -> Option<Error>
        ensures { result ≡ treated_at self.now }
    {
        match self {
            At::Treated(error) => Some(*error),
            At::Kept(_) | At::Opening(_) | At::Purging(_) | At::Named(_) => None,
            At::Repeatable(_) | At::Warning | At::Linked | At::Closing(_, _) => None,
        }
    }

    /// Where the end stands once an error was told, or none.
    fn ended_with(self, error: Option<Error>) -> At<K, C>
        ensures { result ≡ ended_with self error }
    {
        match self {
            At::Kept(kept) => At::Kept(kept),
            At::Opening(place) => At::Opening(place),
            At::Purging(action) => At::Purging(action),
            At::Named(peer) => At::Named(peer),
            At::Repeatable(error) => At::Repeatable(error),
            At::Warning => At::Warning,
            At::Linked => At::Linked,
            At::Treated(treated) => At::Treated(treated),
            At::Closing(context, place) => At::Closing(context, failed_with(place, error)),
        }
    }

    /// The context and where the end stands.
    fn into_closing(self) -> (C, closing::Place<K>)
        requires { is_closing_at self ≡ true }
        ensures { self ≡ At.Closing result.0 result.1 }
    {
        match self {
            At::Closing(context, place) => (context, place),
            At::Kept(_kept) => unreachable!(),
            At::Opening(_place) => unreachable!(),
            At::Named(_peer) => unreachable!(),
            At::Purging(_) | At::Repeatable(_) | At::Warning => unreachable!(),
            At::Linked | At::Treated(_) => unreachable!(),
        }
    }

    /// The value that is kept for the next request of the connection, or none.
    fn into_kept(self) -> Option<K>
        ensures { result ≡ kept_at self }
    {
        match self {
            At::Closing(_context, place) => kept_in(place),
            At::Kept(_kept) => None,
            At::Opening(_place) => None,
            At::Named(_peer) => None,
            At::Purging(_) | At::Repeatable(_) | At::Warning => None,
            At::Linked | At::Treated(_) => None,
        }
    }
}

/// What a call of a hook before a link was given led to: the request goes on, to another hook, to
/// the answer of its error or to the connector; it was answered; or memory was wanted.
#[derive(Clone, Copy)]
pub enum Opened {
    GoesOn,
    Answered,
    OutOfMemory,
}

/// The same, by where the hooks before the attempts stand.
fn leads_to<K>(place: &Place<K>) -> Opened
    ensures { result ≡ leads_to place.now }
{
    match place {
        Place::Behind(_) => Opened::GoesOn,
        Place::Ended(End::Attempts | End::Purge) => Opened::GoesOn,
        Place::Ended(End::Answered | End::Declined) => Opened::Answered,
        Place::Ended(End::Unwritten(_)) => Opened::OutOfMemory,
        Place::Ended(End::Failed(_)) => Opened::GoesOn,
        Place::Lost => Opened::OutOfMemory,
    }
}

/// What was called for one request. The session is without its client, which stands in the phase of
/// the request between two calls.
#[derive(Drop)]
pub struct Calls<M, K, C> {
    pub session: Session<M>,
    at: At<K, C>,
}

impl<M: HttpModule + Drop, K: Drop, C: Drop> Calls<M, K, C> {
    /// No hook was called.
    pub fn new(alloc: Global, kept: Option<K>) -> Calls<M, K, C>
        ensures log { log_of result ≡ [] }
        ensures at { result.at ≡ At.Kept kept }
        ensures modules { result.session.modules ≡ None }
    {
        Calls {
            session: Session::new_h1_unmade(alloc, HttpSession::new_http1(alloc)),
            at: At::Kept(kept),
        }
    }

    /// Whether a hook is called next without the connector.
    pub fn is_calling(&self) -> bool
        ensures { result ≡ is_calling self.now.at }
    {
        self.at.is_calling()
    }

    /// A copy of the peer that was named; none where none was, or there is no memory.
    pub fn peer(&self) -> Option<Peer>
        ensures { IfSome result (λ peer. self.now.at ≡ At.Named peer) }
    {
        match &self.at {
            At::Named(peer) => peer.copy().ok(),
            At::Kept(_) | At::Opening(_) | At::Purging(_) | At::Repeatable(_) => None,
            At::Warning | At::Linked | At::Treated(_) | At::Closing(_, _) => None,
        }
    }

    /// What a purge does, where the purger is asked for it next.
    pub fn purge(&self) -> Option<PurgeAction>
        ensures { result ≡ purge_at self.now.at }
    {
        self.at.purge()
    }

    /// The error with which a hook before the attempts stopped the request, and which is to be
    /// answered.
    pub fn final_error(&self) -> Option<Error>
        ensures { result ≡ final_at self.now.at }
    {
        self.at.final_error()
    }

    /// The error of an attempt as it was treated, which is to be answered.
    pub fn treated(&self) -> Option<Error>
        ensures { result ≡ treated_at self.now.at }
    {
        self.at.treated()
    }

    /// Another attempt follows the one that was given no link, for that error.
    pub fn repeat(&mut self, error: Error)
        ensures { self.new ≡ record self.old { at = At.Repeatable error } }
    {
        self.at = At::Repeatable(error);
    }

    /// The hooks of the end of a request are called with that context, once its client has what it
    /// is owed.
    pub fn begin_end(&mut self, context: C)
        ensures { self.new ≡ record self.old { at = At.Closing context (begun None) } }
    {
        self.at = At::Closing(context, begin_closing(None));
    }

    /// Takes the client's session back, to which nothing is written any more. Where hooks had
    /// answered it, and a write of that failed, the error is final.
    pub fn take_client(&mut self, client: HttpSession, error: Option<Error>)
        ensures { self.new ≡ closed_with self.old client error }
    {
        self.session.seen.downstream = client;
        let at = mem::replace(&mut self.at, At::Linked);
        self.at = at.ended_with(error);
    }

    /// Whether a hook of the end is called next; `goes_back` says that the client may ask for more.
    pub fn has_last(&self, goes_back: bool) -> bool
        ensures { result ≡ has_last self.now.at goes_back }
    {
        match &self.at {
            At::Closing(_, place) => calls_next(place, goes_back),
            At::Kept(_) | At::Opening(_) | At::Purging(_) | At::Named(_) => false,
            At::Repeatable(_) | At::Warning | At::Linked | At::Treated(_) => false,
        }
    }

    /// The outcome that is given of a request that came to that: the same, but for a client that
    /// `logging` left not to be kept; or that turns or memory ran out in the hooks of its end.
    pub fn outcome(&self, came: Outcome) -> Outcome
        ensures { result ≡ given_at self.now.at came }
    {
        match &self.at {
            At::Closing(_, place) => given(place, came),
            At::Kept(_) | At::Opening(_) | At::Purging(_) | At::Named(_) => came,
            At::Repeatable(_) | At::Warning | At::Linked | At::Treated(_) => came,
        }
    }

    /// The log of the calls, and the value that is kept for the next request of the connection.
    pub fn into_parts(self) -> (PhaseLog, Option<K>)
        ensures log { result.0 ≡ log_of self }
        ensures kept { result.1 ≡ kept_at self.at }
    {
        let Calls { session, at } = self;
        let seen = session.seen;
        (seen.log, at.into_kept())
    }
}

/// Makes the context of a request whose head was read, which is the first call.
///
/// Fails out of memory alone.
pub fn begin_calls<SV: ProxyHttp>(
    app: &SV,
    calls: &mut Calls<SV::Modules, SV::Kept, SV::CTX>,
    client: &mut HttpSession,
) -> Result<SV::CTX>
    requires read { IsSome (head_of client.old.reading) }
    requires open_to { has_head client.old.writing.place ≡ false }
    ensures begins { IfOk result (λ context. HasCalled
        (allowed_by (SV.allows app.now) SV.Modules.allows) (seen_with calls.old client.old)
        (SV.mark_of app.now context) accepted made QueuesNothing (seen_with calls.new client.new)
        (SV.mark_of app.now context)) }
    ensures at { IfOk result (λ context. HasBegun calls.new.at) }
    ensures memory { IsOkUnless result Fail.OutOfMemory }
    ensures log { OnErr result (log_of calls.new ≡ log_of calls.old) }
    ensures once { OnOk result (length (log_of calls.new) ≡ length (log_of calls.old) + 1) }
{
    let kept = match mem::replace(&mut calls.at, At::Kept(None)) {
        At::Kept(kept) => kept,
        At::Opening(_) | At::Purging(_) | At::Named(_) | At::Repeatable(_) => None,
        At::Warning | At::Linked | At::Treated(_) | At::Closing(_, _) => None,
    };
    mem::swap(client, &mut calls.session.seen.downstream);
    let begun = begin_opening(app, &mut calls.session, kept);
    mem::swap(client, &mut calls.session.seen.downstream);
    let (context, place) = begun?;
    calls.at = At::Opening(place);
    Ok(context)
}

/// Calls the hook that comes next, and no other, and answers what it led to. `makes_modules` says
/// that the request has modules, which are made behind `allow_spawning_subrequest`; else none are.
///
/// A hook is called only for a client whose head was read and to whom no final head was queued:
/// where it is called next that is so, and else this is out of memory.
pub fn call_next<SV: ProxyHttp>(
    app: &SV,
    calls: &mut Calls<SV::Modules, SV::Kept, SV::CTX>,
    context: &mut SV::CTX,
    client: &mut HttpSession,
    makes_modules: bool,
) -> Opened
    requires { is_calling calls.old.at ≡ true }
    ensures shown { result ≡ leads_at calls.new.at }
    ensures turns { CallsNext (allowed_by (SV.allows app.now) SV.Modules.allows) calls.old
        client.old (SV.mark_of app.now context.old) calls.new client.new
        (SV.mark_of app.now context.new) }
    ensures made { AreMadeBy makes_modules calls.old calls.new }
{
    let at = mem::replace(&mut calls.at, At::Opening(Place::Lost));
    if !client.has_head() || client.response_written() {
        return Opened::OutOfMemory;
    }
    mem::swap(client, &mut calls.session.seen.downstream);
    let at = take_next(app, &mut calls.session, context, at, makes_modules);
    mem::swap(client, &mut calls.session.seen.downstream);
    let led = at.leads();
    calls.at = at;
    led
}

/// The same over the session that hooks are shown.
fn take_next<SV: ProxyHttp>(
    app: &SV,
    session: &mut Session<SV::Modules>,
    context: &mut SV::CTX,
    at: At<SV::Kept, SV::CTX>,
    makes_modules: bool,
) -> At<SV::Kept, SV::CTX>
    requires calling { is_calling at ≡ true }
    requires open_to { IsTrue (is_open session.old.seen) }
    ensures turns { TakesNext (allowed_by (SV.allows app.now) SV.Modules.allows) at
        (is_some session.old.modules) session.old.seen (SV.mark_of app.now context.old)
        session.new.seen (SV.mark_of app.now context.new) result }
    ensures made { AreMadeAt makes_modules at result session.old.modules session.new.modules }
{
    match at {
        At::Opening(Place::Behind(last)) => {
            let place = Place::Behind(last);
            At::Opening(take_turn(app, session, context, place, makes_modules))
        }
        At::Opening(Place::Ended(End::Purge)) => match ask_action(app, session, context) {
            Ok(action) => At::Purging(action),
            Err(_) => At::Opening(Place::Lost),
        },
        At::Opening(Place::Ended(End::Attempts)) => match name_peer(app, session, context) {
            Ok(peer) => At::Named(peer),
            Err(Fail::Error(error)) => At::Opening(Place::Ended(End::Failed(error))),
            Err(Fail::OutOfMemory) => At::Opening(Place::Lost),
        },
        At::Repeatable(error) => match warn(app, session, context, &error) {
            Ok(true) => At::Opening(Place::Ended(End::Attempts)),
            Ok(false) => At::Warning,
            Err(_) => At::Opening(Place::Lost),
        },
        At::Warning => match summarize(app, session, context) {
            Ok(_summary) => At::Opening(Place::Ended(End::Attempts)),
            Err(_) => At::Opening(Place::Lost),
        },
        At::Opening(Place::Ended(End::Answered | End::Declined)) => unreachable!(),
        At::Opening(Place::Ended(End::Unwritten(_) | End::Failed(_))) => unreachable!(),
        At::Opening(Place::Lost) | At::Kept(_) | At::Named(_) | At::Linked => unreachable!(),
        At::Purging(_) | At::Treated(_) | At::Closing(_, _) => unreachable!(),
    }
}

/// Asks the purger, once, to do that with what is kept for the request's target, has the head of
/// the answer filtered, and queues the answer.
///
/// Out of memory also for a client whose head was not read or to whom a final head was queued,
/// which cannot be where this is called; the purger is not asked then.
pub fn call_purger<SV: ProxyHttp, P: Purger>(
    app: &SV,
    purger: &mut P,
    calls: &mut Calls<SV::Modules, SV::Kept, SV::CTX>,
    context: &mut SV::CTX,
    client: &mut HttpSession,
    action: PurgeAction,
) -> Purged
    ensures purges { PurgesTo (allowed_by (SV.allows app.now) SV.Modules.allows) action
        (P.state purger.old) (P.state purger.new) (seen_with calls.old client.old)
        (SV.mark_of app.now context.old) (seen_with calls.new client.new)
        (SV.mark_of app.now context.new) result }
    ensures asked { (P.state purger.new ≡ P.state purger.old)
        ⊎ IsAsked (P.state purger.old) action (seen_with calls.old client.old)
        (P.state purger.new) }
{
    if !client.has_head() || client.response_written() {
        return Purged::Lost;
    }
    mem::swap(client, &mut calls.session.seen.downstream);
    let end = purge(app, purger, &mut calls.session, context, action);
    mem::swap(client, &mut calls.session.seen.downstream);
    end
}

/// Tells the application of the link to that peer, which had been used before or not.
///
/// The error of the hook, which stands in its entry. Out of memory also where the client's head was
/// not read, which cannot be where this is called.
pub fn tell_link<SV: ProxyHttp>(
    app: &SV,
    calls: &mut Calls<SV::Modules, SV::Kept, SV::CTX>,
    context: &mut SV::CTX,
    client: &mut HttpSession,
    peer: &Peer,
    reused: bool,
) -> Result<()>
    ensures told { TellsConnected (allowed_by (SV.allows app.now) SV.Modules.allows) peer.now reused
        (seen_with calls.old client.old) (SV.mark_of app.now context.old)
        (seen_with calls.new client.new) (SV.mark_of app.now context.new) result }
    ensures at { OnOk result (calls.new.at ≡ At.Linked) }
    ensures stays { OnErr result (calls.new.at ≡ calls.old.at) }
{
    if !client.has_head() {
        return Err(Fail::OutOfMemory);
    }
    mem::swap(client, &mut calls.session.seen.downstream);
    let told = tell_connected(app, &mut calls.session, context, peer, reused);
    mem::swap(client, &mut calls.session.seen.downstream);
    if told.is_ok() {
        calls.at = At::Linked;
    }
    told
}

/// Has the application treat the error of an attempt at that peer to which the connector gave no
/// link, and answers the error as it made it.
///
/// Out of memory alone, where no entry is new; also where the client's head was not read, which
/// cannot be where this is called.
pub fn treat_unlinked<SV: ProxyHttp>(
    app: &SV,
    calls: &mut Calls<SV::Modules, SV::Kept, SV::CTX>,
    context: &mut SV::CTX,
    client: &mut HttpSession,
    peer: &Peer,
    error: Error,
) -> Result<Error>
    ensures treats { IfOk result (λ treated.
        Treats (allowed_by (SV.allows app.now) SV.Modules.allows) Hook.FailToConnect peer.now
        false named error (seen_with calls.old client.old) (SV.mark_of app.now context.old)
        (seen_with calls.new client.new) (SV.mark_of app.now context.new) treated) }
    ensures memory { IsOkUnless result Fail.OutOfMemory }
    ensures lost { OnErr result (log_of calls.new ≡ log_of calls.old) }
    ensures at { calls.new.at ≡ calls.old.at }
{
    if !client.has_head() {
        return Err(Fail::OutOfMemory);
    }
    mem::swap(client, &mut calls.session.seen.downstream);
    let treated = treat_refusal(app, &mut calls.session, context, peer, error);
    mem::swap(client, &mut calls.session.seen.downstream);
    treated
}

/// Calls the filter of the head that is sent, and answers the head as it left it.
///
/// The error of the filter, which stands in its entry. Out of memory also where the client's head
/// was not read, which cannot be where this is called.
pub fn filter<SV: ProxyHttp>(
    app: &SV,
    calls: &mut Calls<SV::Modules, SV::Kept, SV::CTX>,
    context: &mut SV::CTX,
    client: &mut HttpSession,
    ready: RequestHeader,
) -> Result<RequestHeader>
    ensures filters { FiltersHead (allowed_by (SV.allows app.now) SV.Modules.allows) ready
        (seen_with calls.old client.old) (SV.mark_of app.now context.old)
        (seen_with calls.new client.new) (SV.mark_of app.now context.new) result }
    ensures at { calls.new.at ≡ calls.old.at }
{
    if !client.has_head() {
        return Err(Fail::OutOfMemory);
    }
    mem::swap(client, &mut calls.session.seen.downstream);
    let filtered = filter_head(app, &mut calls.session, context, ready);
    mem::swap(client, &mut calls.session.seen.downstream);
    filtered
}

/// Has the application treat the error of an attempt that had its link, and keeps the error as it
/// made it. The attempt is at that peer, and its link had been used before or not.
///
/// Out of memory alone, where no entry is new; also where the client's head was not read, which
/// cannot be where this is called.
pub fn treat<SV: ProxyHttp>(
    app: &SV,
    calls: &mut Calls<SV::Modules, SV::Kept, SV::CTX>,
    context: &mut SV::CTX,
    client: &mut HttpSession,
    peer: &Peer,
    error: Error,
    reused: bool,
) -> Result<Error>
    ensures treats { (from : Station) → IsTrue (may_break from) → IfOk result (λ treated.
        Treats (allowed_by (SV.allows app.now) SV.Modules.allows) Hook.ErrorWhileProxy peer.now
        reused from error (seen_with calls.old client.old) (SV.mark_of app.now context.old)
        (seen_with calls.new client.new) (SV.mark_of app.now context.new) treated) }
    ensures memory { IsOkUnless result Fail.OutOfMemory }
    ensures lost { OnErr result (log_of calls.new ≡ log_of calls.old) }
    ensures at { IfOk result (λ treated. calls.new.at ≡ At.Treated treated) }
{
    if !client.has_head() {
        return Err(Fail::OutOfMemory);
    }
    mem::swap(client, &mut calls.session.seen.downstream);
    let treated = treat_failure(app, &mut calls.session, context, peer, error, reused);
    mem::swap(client, &mut calls.session.seen.downstream);
    let treated = treated?;
    calls.at = At::Treated(treated);
    Ok(treated)
}

/// Has the application answer the client for that error, which is final. With this the end of the
/// request begins, and the context is kept for its other hooks.
///
/// Out of memory alone, where no entry is new; also where the client's head was not read, which
/// cannot be where this is called.
pub fn answer_error<SV: ProxyHttp>(
    app: &SV,
    calls: &mut Calls<SV::Modules, SV::Kept, SV::CTX>,
    context: SV::CTX,
    client: &mut HttpSession,
    error: Error,
) -> Result<()>
    ensures answers { (from : Station) → IsTrue (may_fail from) → OnOk result (
        HasAnswered (allowed_by (SV.allows app.now) SV.Modules.allows) (SV.mark_of app.now) error
        from (seen_with calls.old client.old) (SV.mark_of app.now context) calls.new client.new) }
    ensures memory { IsOkUnless result Fail.OutOfMemory }
    ensures lost { OnErr result (log_of calls.new ≡ log_of calls.old) }
{
    if !client.has_head() {
        return Err(Fail::OutOfMemory);
    }
    let mut context = context;
    mem::swap(client, &mut calls.session.seen.downstream);
    let failing = begin_closing(Some(error));
    let place = closing::take_turn(app, &mut calls.session, &mut context, failing, false);
    mem::swap(client, &mut calls.session.seen.downstream);
    if place.is_lost() {
        return Err(Fail::OutOfMemory);
    }
    calls.at = At::Closing(context, place);
    Ok(())
}

/// Calls the hook of the end of a request that comes next; `goes_back` says that its client may ask
/// for more. The session has its client again, and the context is that of the calls before.
///
/// Where the client's head was not read, which cannot be where this is called, none is called, and
/// the end stands as out of memory.
pub fn call_last<SV: ProxyHttp>(
    app: &SV,
    calls: &mut Calls<SV::Modules, SV::Kept, SV::CTX>,
    goes_back: bool,
) -> Work
    requires { has_last calls.old.at goes_back ≡ true }
    ensures turns { CallsLast (allowed_by (SV.allows app.now) SV.Modules.allows)
        (SV.mark_of app.now) goes_back calls.old calls.new }
    ensures counts { CountsCalls calls.old calls.new result }
    ensures work { result ≡ (if is_lost_at calls.new.at then Work.NONE else Work.CALLED) }
{
    let (context, place) = mem::replace(&mut calls.at, At::Linked).into_closing();
    if !calls.session.seen.downstream.has_head() {
        calls.at = At::Closing(context, closing::Place::Lost);
        return Work::NONE;
    }
    let mut context = context;
    let place = closing::take_turn(app, &mut calls.session, &mut context, place, goes_back);
    let work = work_behind(&place);
    calls.at = At::Closing(context, place);
    work
}

/// The work of a turn that called a hook of the end: that call; or none, where memory was wanted.
fn work_behind<K>(place: &closing::Place<K>) -> Work
    ensures { result ≡ (if is_lost place.now then Work.NONE else Work.CALLED) }
{
    if place.is_lost() {
        return Work::NONE;
    }
    Work::CALLED
}

//! A client's connection that is open, with the request under way on it (RFC 9112, section 9.3).
ghost use Rattle.std.specs.Prelude.{◌≡◌, ◌≤◌, ◌+◌, ℕ, List, [], ◌∷◌, true, false};
ghost use Rattle.relay_attempt.specs.Passed.{Passed};
ghost use Rattle.relay_request.specs.Calls.{CallsSoFar, allowed_by, log_of};
ghost use Rattle.relay_request.specs.Passed.{Start};
ghost use Rattle.relay_request.specs.Phases.{RunSoFar};
ghost use Rattle.relay_request.specs.Request.{is_done};
ghost use Rattle.relay_request.specs.Turn.{links_held, is_end, world_of};
ghost use Rattle.relay_server.specs.Idle.{is_idle, HasNotBegun};
ghost use Rattle.relay_server.specs.Serving.{Books, Visit, books, CountRises, all_held, Serves, EndsOne, IsHanded, with_next, is_reused};

use crate::serving_schedule::ServingSchedule;
use crate::stillness::Stillness;
use relay_connector::{Connector, LinkOf};
use relay_h1::Connection;
use relay_links::{ByteLink, CountDelay, Purger, Schedule, ShutdownAt};
use relay_proxy::{HttpProxy, Outcome, Outside, ProxyHttp, RequestMachine, RunStep};
use std::alloc::Global;
use std::marker::Model;

/// A client's connection, the request under way on it, and what that asks beside its links: the
/// branches of the duplex by `ServingSchedule`, no shutdown, and delays that are counted and not
/// waited for. It means the connection, where the request stands, the calls of hooks for it, and how
/// many calls of the client's link had failed as it began.
pub(crate) struct OpenConnection<SV: ProxyHttp, K: Connector, D> {
    client: Connection<D, SV::Kept>,
    machine: RequestMachine<SV, K>,
    outside: Outside<ServingSchedule, ShutdownAt, CountDelay>,
    stillness: Stillness,
}

impl<SV: ProxyHttp, K: Connector, D> Model for OpenConnection<SV, K, D> {
    ghost use Rattle.relay_connector.specs.declared.upstream.Upstream.{Upstream};
    ghost use Rattle.relay_server.specs.Serving.{Visit};

    ghost Value = { Visit D SV.Kept (Upstream K.Byte K.Message K.Custom) SV.CTX SV.Modules };

    ghost view = { λ o. record {
      client = o.client;
      phase = o.machine.machine.phase;
      calls = o.machine.calls;
      first = o.machine.machine.first;
    } };
}

impl<SV: ProxyHttp, K: Connector, D: ByteLink> OpenConnection<SV, K, D> {
    /// Begins the first request on a client's link.
    pub(crate) fn begin<P: Purger>(
        alloc: Global,
        proxy: &HttpProxy<SV, K, P>,
        link: D,
    ) -> OpenConnection<SV, K, D>
        ensures serves { (before : Books _) (rest : List (Visit _ _ _ _ _))
            → Serves ⟦<LinkOf<K> as ByteLink>⟧.state ⟦<LinkOf<K> as ByteLink>⟧.start D.state
            (allowed_by (SV.allows proxy.now.inner) SV.Modules.allows)
            (SV.mark_of proxy.now.inner) before
            (books K.returned K.fault_count proxy.now) rest
            → Serves ⟦<LinkOf<K> as ByteLink>⟧.state ⟦<LinkOf<K> as ByteLink>⟧.start D.state
            (allowed_by (SV.allows proxy.now.inner) SV.Modules.allows)
            (SV.mark_of proxy.now.inner) before
            (books K.returned K.fault_count proxy.now) (result ∷ rest) }
        ensures no_link { links_held ⟦<LinkOf<K> as ByteLink>⟧.state ⟦<LinkOf<K> as ByteLink>⟧.start
            result.phase ≡ 0 }
    {
        let mut client = Connection::new(alloc, link);
        let machine = proxy.begin(&mut client, None);
        OpenConnection {
            client,
            machine,
            outside: Outside {
                schedule: ServingSchedule::new(),
                shutdown: ShutdownAt::new(None),
                delay: CountDelay::new(),
            },
            stillness: Stillness::Moving,
        }
    }

    /// Whether no turn can move anything until the outside has been waited for.
    pub(crate) fn is_still(&self) -> bool {
        self.stillness == Stillness::Still
    }

    /// Where the outside has been waited for, a turn may move something again.
    pub(crate) fn wake(&mut self, woken: bool)
        ensures { self.new ≡ self.old }
    {
        if woken {
            self.stillness = Stillness::Moving;
        }
    }

    /// Whether no byte of its request has come: it is between two requests, or before its first.
    pub(crate) fn is_idle(&self) -> bool
        ensures exact { result ≡ is_idle self.now }
        // Nothing was asked, and nothing was done.
        ensures unbegun { (faults : ℕ) (s : Start) (p : Passed) (own : List _)
            → is_idle self.now ≡ true → RunSoFar ⟦<LinkOf<K> as ByteLink>⟧.state
            ⟦<LinkOf<K> as ByteLink>⟧.start s p
            (world_of D.state self.now.client faults) own self.now.phase → HasNotBegun s p own }
        // Nor was a hook called, whatever the application.
        ensures uncalled { (app : SV) → is_idle self.now ≡ true
            → CallsSoFar (allowed_by (SV.allows app) SV.Modules.allows) (SV.mark_of app)
            self.now.calls self.now.phase → log_of self.now.calls ≡ [] }
    {
        self.machine.is_reading_head() && self.client.ahead().is_empty()
    }

    /// Takes one turn of the request, and tells what it did.
    pub(crate) fn step<P: Purger>(&mut self, proxy: &mut HttpProxy<SV, K, P>) -> RunStep
        requires { links_held ⟦<LinkOf<K> as ByteLink>⟧.state ⟦<LinkOf<K> as ByteLink>⟧.start
            self.old.phase ≤ K.out proxy.old.connector }
        ensures goes { (before : Books _) (rest : List (Visit _ _ _ _ _)) → is_end result ≡ false
            → Serves ⟦<LinkOf<K> as ByteLink>⟧.state ⟦<LinkOf<K> as ByteLink>⟧.start D.state
            (allowed_by (SV.allows proxy.old.inner) SV.Modules.allows)
            (SV.mark_of proxy.old.inner) before
            (books K.returned K.fault_count proxy.old) (self.old ∷ rest)
            → Serves ⟦<LinkOf<K> as ByteLink>⟧.state ⟦<LinkOf<K> as ByteLink>⟧.start D.state
            (allowed_by (SV.allows proxy.new.inner) SV.Modules.allows)
            (SV.mark_of proxy.new.inner) before
            (books K.returned K.fault_count proxy.new) (self.new ∷ rest) }
        ensures ends { (before : Books _) (rest : List (Visit _ _ _ _ _)) → is_end result ≡ true
            → Serves ⟦<LinkOf<K> as ByteLink>⟧.state ⟦<LinkOf<K> as ByteLink>⟧.start D.state
            (allowed_by (SV.allows proxy.old.inner) SV.Modules.allows)
            (SV.mark_of proxy.old.inner) before
            (books K.returned K.fault_count proxy.old) (self.old ∷ rest)
            → EndsOne ⟦<LinkOf<K> as ByteLink>⟧.state ⟦<LinkOf<K> as ByteLink>⟧.start D.state
            (allowed_by (SV.allows proxy.new.inner) SV.Modules.allows)
            (SV.mark_of proxy.new.inner) before
            (books K.returned K.fault_count proxy.new) self.new rest }
        ensures held { K.out proxy.new.connector
            + links_held ⟦<LinkOf<K> as ByteLink>⟧.state ⟦<LinkOf<K> as ByteLink>⟧.start
            self.old.phase
            ≡ K.out proxy.old.connector
            + links_held ⟦<LinkOf<K> as ByteLink>⟧.state ⟦<LinkOf<K> as ByteLink>⟧.start
            self.new.phase }
        ensures same { proxy.new ≡ record proxy.old {
          connector = proxy.new.connector;
          purger = proxy.new.purger;
        } }
    {
        let step = proxy.step(&mut self.machine, &mut self.client, &mut self.outside);
        self.stillness = self.stillness.after(step, self.outside.schedule.last());
        step
    }

    /// Ends the request, and begins the next one where the connection is reused.
    pub(crate) fn end<P: Purger>(
        self,
        proxy: &mut HttpProxy<SV, K, P>,
    ) -> AfterRequest<OpenConnection<SV, K, D>, D>
        requires { links_held ⟦<LinkOf<K> as ByteLink>⟧.state ⟦<LinkOf<K> as ByteLink>⟧.start
            self.phase ≤ K.out proxy.old.connector }
        ensures serves { (before : Books _) (rest : List (Visit _ _ _ _ _))
            → EndsOne ⟦<LinkOf<K> as ByteLink>⟧.state ⟦<LinkOf<K> as ByteLink>⟧.start D.state
            (allowed_by (SV.allows proxy.old.inner) SV.Modules.allows)
            (SV.mark_of proxy.old.inner) before
            (books K.returned K.fault_count proxy.old) self rest
            → Serves ⟦<LinkOf<K> as ByteLink>⟧.state ⟦<LinkOf<K> as ByteLink>⟧.start D.state
            (allowed_by (SV.allows proxy.new.inner) SV.Modules.allows)
            (SV.mark_of proxy.new.inner) before
            (books K.returned K.fault_count proxy.new)
            (with_next result rest) }
        ensures held { K.out proxy.new.connector + links_held ⟦<LinkOf<K> as ByteLink>⟧.state
            ⟦<LinkOf<K> as ByteLink>⟧.start self.phase
            ≡ K.out proxy.old.connector }
        ensures no_link { all_held ⟦<LinkOf<K> as ByteLink>⟧.state ⟦<LinkOf<K> as ByteLink>⟧.start
            (with_next result []) ≡ 0 }
        // The next one is handed the value that this one kept.
        ensures kept { IsHanded self.calls.at result }
        ensures counted { CountRises proxy.old.requests_ended proxy.new.requests_ended }
        ensures same { proxy.new ≡ record proxy.old {
          connector = proxy.new.connector;
          requests_ended = proxy.new.requests_ended;
        } }
    {
        let OpenConnection {
            mut client,
            machine,
            outside,
            stillness: _,
        } = self;
        let (processed, kept) = proxy.end(machine, &mut client);
        if !is_reused(processed.outcome) {
            return AfterRequest::Ends(client.into_link());
        }
        let machine = proxy.begin(&mut client, kept);
        AfterRequest::Goes(OpenConnection {
            client,
            machine,
            outside: Outside {
                schedule: ServingSchedule::new(),
                ..outside
            },
            stillness: Stillness::Moving,
        })
    }

    /// Gives the connection up while its request is under way, and answers its link.
    pub(crate) fn give_up<P: Purger>(self, proxy: &mut HttpProxy<SV, K, P>) -> D
        requires { links_held ⟦<LinkOf<K> as ByteLink>⟧.state ⟦<LinkOf<K> as ByteLink>⟧.start
            self.phase ≤ K.out proxy.old.connector }
        ensures serves { (before : Books _) (rest : List (Visit _ _ _ _ _))
            → Serves ⟦<LinkOf<K> as ByteLink>⟧.state ⟦<LinkOf<K> as ByteLink>⟧.start D.state
            (allowed_by (SV.allows proxy.old.inner) SV.Modules.allows)
            (SV.mark_of proxy.old.inner) before
            (books K.returned K.fault_count proxy.old) (self ∷ rest)
            → Serves ⟦<LinkOf<K> as ByteLink>⟧.state ⟦<LinkOf<K> as ByteLink>⟧.start D.state
            (allowed_by (SV.allows proxy.new.inner) SV.Modules.allows)
            (SV.mark_of proxy.new.inner) before
            (books K.returned K.fault_count proxy.new) rest }
        ensures held { K.out proxy.new.connector + links_held ⟦<LinkOf<K> as ByteLink>⟧.state
            ⟦<LinkOf<K> as ByteLink>⟧.start self.phase
            ≡ K.out proxy.old.connector }
        ensures uncounted { is_done self.phase self.calls.at ≡ false
            → proxy.new.requests_ended ≡ proxy.old.requests_ended }
        ensures counted { CountRises proxy.old.requests_ended proxy.new.requests_ended }
        ensures same { proxy.new ≡ record proxy.old {
          connector = proxy.new.connector;
          requests_ended = proxy.new.requests_ended;
        } }
    {
        let OpenConnection {
            mut client,
            machine,
            outside: _,
            stillness: _,
        } = self;
        let _ = proxy.end(machine, &mut client);
        client.into_link()
    }
}

/// What becomes of a connection whose request was ended.
pub(crate) enum AfterRequest<O, D> {
    /// Its next request has begun.
    Goes(O),
    /// No request follows: its link is to be closed.
    Ends(D),
}

/// Whether the client's connection is kept for another request.
fn is_reused(outcome: Outcome) -> bool
    ensures { result ≡ is_reused outcome }
{
    match outcome {
        Outcome::Served { error: _, reuse } => reuse,
        Outcome::NoRequest | Outcome::Refused { .. } | Outcome::TurnLimit | Outcome::OutOfMemory =>
            false,
    }
}

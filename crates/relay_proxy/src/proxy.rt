//! The proxy: requests are begun, stepped and ended, or processed in one call.
ghost use Rattle.std.specs.Prelude.{◌≡◌, ◌⊎◌, ◌+◌, ◌<◌, ◌≤◌, ℕ, [], List, drop, length, IsSome, None, Some, true, false};
ghost use Rattle.std.specs.Global.{Box};
ghost use Rattle.relay_connector.specs.Connector.{handed};
ghost use Rattle.relay_tasks.specs.Log.{delays_of};
ghost use Rattle.relay_links.specs.Count.{Rose};
ghost use Rattle.relay_links.specs.Link.{LinkState};
ghost use Rattle.relay_peer.specs.Body.{IsFrontOf};
ghost use Rattle.relay_attempt.specs.Passed.{Passed};
ghost use Rattle.relay_request.specs.Bound.{PhaseCounts};
ghost use Rattle.relay_phases.specs.Order.{Station};
ghost use Rattle.relay_request.specs.Calls.{AreMadeIn, CallsLast, CallsSoFar, CountsLast, IsLogged, KeepsValue, allowed_by, is_ending, is_exchanging, kept_at, last_of, log_of};
ghost use Rattle.relay_links.specs.Count.{up};
ghost use Rattle.relay_request.specs.Delays.{HandsOver, delays_since};
ghost use Rattle.relay_request.specs.Passed.{Start, called_to, start_of, nothing};
ghost use Rattle.relay_request.specs.Phases.{RunSoFar};
ghost use Rattle.relay_request.specs.Purging.{AsksPurger, HasLost, HasPurged};
ghost use Rattle.relay_request.specs.Refusals.{attempts_in};
ghost use Rattle.relay_request.specs.Request.{answer_of, is_done, is_stop, ended_after, kept_of, Counts, StepsOn, ComesToEnd, Processes};
ghost use Rattle.relay_request.specs.Stock.{items_held, all_links, Stocks};
ghost use Rattle.relay_request.specs.Turn.{world_of, held_state, links_held, is_reading_head, is_over, is_end, HasCause};
ghost use Rattle.relay_request.specs.Uses.{CountsUses, MovesOn, OwesAnswer, StandsBehind};
ghost use Rattle.relay_request.specs.Work.{added_work, total_work, Grows};
ghost use Rattle.relay_request.specs.declared.calls.At.{At};
ghost use Rattle.relay_request.specs.declared.machine.Phase.{Phase};

use crate::finish::{finish, settle};
use crate::turn::take_turn;
use relay_connector::{Connector, LinkOf};
use relay_h1::{Ahead, Connection};
use relay_hooks::ProxyHttp;
use relay_links::{ByteLink, Delay, Purger, Schedule, ShutdownWatch};
use relay_request::{
    Calls, Did, Machine, Outcome, Processed, RunRecord, RunStep, Work, call_last, count_ended,
    count_turn, hand_delays, kept_of,
};
use relay_tasks::Pause;
use std::alloc::Global;

/// How a proxy is set up.
#[derive(Clone, Copy, Debug, PartialEq, Eq)]
pub struct ServerConf {
    /// How many attempts a request has at most: 1 or more.
    pub max_retries: usize,
}

/// What a proxy asks beside its links: which branch is next, whether it shuts down, and to wait.
#[derive(Drop)]
pub struct Outside<H, W, Y> {
    pub schedule: H,
    pub shutdown: W,
    pub delay: Y,
}

/// An application over a connector and a purger.
#[derive(Drop)]
pub struct HttpProxy<SV, K, P> {
    alloc: Global,
    inner: SV,
    conf: ServerConf,
    makes_modules: bool,
    connector: K,
    purger: P,
    requests_ended: u64,
    // The buffer into which responses are read, one turn after the other. No bytes are ahead in it.
    room: Ahead,
}

/// A proxy whose requests make their modules: `HttpProxy::new`, and then `handle_init_modules`.
/// `max_retries` is at least 1.
pub fn http_proxy<SV: ProxyHttp, K: Connector, P: Purger>(
    alloc: Global,
    conf: ServerConf,
    inner: SV,
    connector: K,
    purger: P,
) -> HttpProxy<SV, K, P>
    requires { 1 ≤ conf.max_retries }
    ensures connector { result.connector ≡ connector }
    ensures inner { result.inner ≡ inner }
    ensures conf { result.conf ≡ conf }
    ensures purger { result.purger ≡ purger }
    ensures modules { result.makes_modules ≡ true }
    ensures none_ended { result.requests_ended ≡ 0 }
{
    let mut proxy = HttpProxy::new(alloc, inner, conf, connector, purger);
    proxy.handle_init_modules();
    proxy
}

/// A request under way. It holds the link of its attempt, so it is given to `end`.
pub struct RequestMachine<SV: ProxyHttp, K: Connector> {
    machine: Machine<LinkOf<K>, SV::CTX>,
    calls: Calls<SV::Modules, SV::Kept, SV::CTX>,
}

impl<SV: ProxyHttp, K: Connector> RequestMachine<SV, K> {
    /// Whether the client's head is still read.
    pub fn is_reading_head(&self) -> bool
        ensures { result ≡ is_reading_head self.now.machine.phase }
    {
        self.machine.phase.is_reading_head()
    }

    /// Where a hook of the end of a request that has ended is called next, whether its client may
    /// ask for more.
    fn goes_on_last(&self) -> Option<bool>
        ensures { result ≡ last_of self.now.machine.phase self.now.calls.at }
    {
        let goes_back = self.machine.phase.goes_back()?;
        if !self.calls.has_last(goes_back) {
            return None;
        }
        Some(goes_back)
    }

    /// Whether the request has ended, but for the hooks of its end.
    fn is_over(&self) -> bool
        ensures { result ≡ is_over self.now.machine.phase }
    {
        self.machine.phase.is_over()
    }

    /// A turn of a request that has ended, and all of whose hooks were called, does no work. The
    /// sum changes no number: it says, for the proof of `step`, that none is past its last value.
    fn rest(&mut self) -> RunStep
        ensures same { self.new ≡ self.old }
        ensures adds { self.new.machine.work ≡ added_work self.old.machine.work Work.NONE }
        ensures ended { result ≡ RunStep.Ended }
    {
        self.machine.work = self.machine.work.plus(Work::NONE);
        RunStep::Ended
    }

    /// How many delays the calls so far asked for.
    fn delays_asked(&self) -> usize
        ensures { result ≡ length (delays_of (log_of self.now.calls)) }
    {
        self.calls.session.phase_log().delays().len()
    }

    /// Hands over the delays that were asked for behind the first so many.
    fn hand_delays<Y: Delay>(&self, handed: usize, delay: &mut Y)
        ensures { HandsOver (Y.calls delay.old) (Y.total delay.old) (Y.calls delay.new)
            (Y.total delay.new) (drop handed (delays_of (log_of self.now.calls))) }
    {
        hand_delays(self.calls.session.phase_log(), handed, delay);
    }

    /// What is answered behind a turn: where it ended the request, and hooks are to be called for
    /// that, it moved.
    fn answer(&self, step: RunStep) -> RunStep
        ensures { result ≡ answer_of (is_ending self.now.machine.phase self.now.calls.at) step }
    {
        if self.goes_on_last().is_some() {
            RunStep::Moved
        } else {
            step
        }
    }
}

impl<SV: ProxyHttp, K: Connector, P: Purger> HttpProxy<SV, K, P> {
    /// A proxy whose requests have no modules. `max_retries` is at least 1.
    pub fn new(alloc: Global, inner: SV, conf: ServerConf, connector: K, purger: P) -> Self
        requires { 1 ≤ conf.max_retries }
        ensures connector { result.connector ≡ connector }
        ensures inner { result.inner ≡ inner }
        ensures conf { result.conf ≡ conf }
        ensures purger { result.purger ≡ purger }
        ensures modules { result.makes_modules ≡ false }
        ensures none_ended { result.requests_ended ≡ 0 }
    {
        HttpProxy {
            alloc,
            inner,
            conf,
            makes_modules: false,
            connector,
            purger,
            requests_ended: 0,
            room: Ahead::new(alloc),
        }
    }

    /// From now on each request makes its modules, by `init_downstream_modules`, as it is asked for
    /// subrequests: each that is begun, and each under way that was not asked yet. Before this was
    /// called none does, and no filter of a module runs.
    pub fn handle_init_modules(&mut self)
        ensures { self.new ≡ record self.old { makes_modules = true } }
    {
        self.makes_modules = true;
    }

    /// The connector.
    pub fn connector(&self) -> &K
        ensures { result.now ≡ self.now.connector }
    {
        &self.connector
    }

    /// How many requests of this proxy ended with the outcome `Served` or `Refused`. The number
    /// stands still at its last value.
    pub fn requests_ended(&self) -> u64
        ensures { result ≡ self.now.requests_ended }
    {
        self.requests_ended
    }

    /// The purger.
    pub fn purger(&self) -> &P
        ensures { result.now ≡ self.now.purger }
    {
        &self.purger
    }

    /// Begins a request on a client's connection, with the value that was kept from the request
    /// before, which is handed to the application once its context was made. It takes no memory
    /// and calls nothing.
    pub fn begin<D: ByteLink>(
        &self,
        client: &mut Connection<D, SV::Kept>,
        kept: Option<SV::Kept>,
    ) -> RequestMachine<SV, K>
        ensures run { RunSoFar ⟦<LinkOf<K> as ByteLink>⟧.state ⟦<LinkOf<K> as ByteLink>⟧.start
            (start_of self.now.conf.max_retries
            (world_of D.state client.old (K.fault_count self.now.connector)))
            nothing (world_of D.state client.new (K.fault_count self.now.connector)) []
            result.machine.phase }
        ensures calls { CallsSoFar (allowed_by (SV.allows self.now.inner) SV.Modules.allows)
            (SV.mark_of self.now.inner) result.calls result.machine.phase }
        ensures no_log { log_of result.calls ≡ [] }
        ensures no_modules { result.calls.session.modules ≡ None }
        ensures starts { called_to (start_of self.now.conf.max_retries
            (world_of D.state client.old (K.fault_count self.now.connector)))
            (log_of result.calls) ≡ start_of self.now.conf.max_retries
            (world_of D.state client.old (K.fault_count self.now.connector)) }
        ensures first { result.machine.first ≡ (D.state client.old.link).faults }
        ensures no_turns { result.machine.turns ≡ 0 }
        ensures unused { result.machine.work.used ≡ 0 }
        ensures unmoved { result.machine.work.moved ≡ 0 }
        ensures unended { result.machine.work.ended ≡ 0 }
        ensures uncalled { result.machine.work.called ≡ 0 }
        ensures uncounted { (s : Start) (link : LinkState) (ahead : List ℕ) (own : List _)
            → PhaseCounts ⟦<LinkOf<K> as ByteLink>⟧.state ⟦<LinkOf<K> as ByteLink>⟧.start 0 0 s link
            ahead own result.machine.phase }
        ensures going { is_over result.machine.phase ≡ false }
        ensures no_link { links_held ⟦<LinkOf<K> as ByteLink>⟧.state ⟦<LinkOf<K> as ByteLink>⟧.start
            result.machine.phase ≡ 0 }
        ensures no_items { items_held ⟦<LinkOf<K> as ByteLink>⟧.start result.machine.phase ≡ [] }
        ensures no_attempts { attempts_in result.machine.phase ≡ [] }
        ensures kept { result.calls.at ≡ At.Kept kept }
        ensures client { client.new ≡ client.old }
    {
        RequestMachine {
            machine: Machine::new(client.link().faults()),
            calls: Calls::new(self.alloc, kept),
        }
    }

    /// Takes one turn of a request: one call of the link that it waits for, one verdict on a head,
    /// one call of a hook, one of the connector with that of `connected_to_upstream` behind the
    /// link that it gave, or of `fail_to_connect` where it gave none, one of the purger with that
    /// of `purge_response_filter` behind its answer, or one branch of the duplex. That branch makes
    /// the calls of filters that its piece or batch wants, and the call in which an exchange begins
    /// that for what is put again. In the duplex the schedule picks the branch; where it names none
    /// or one that cannot be taken, the first that can is taken. A branch whose link is silent
    /// passes the turn on to the next, going round; where all are silent the answer is
    /// `Waited(Silent)`. The delays that filters asked for are handed over at its end, when nothing
    /// was written yet that they let pass.
    ///
    /// Once a request that was served has ended, the hooks of its end are called, one a turn, and
    /// the answer is `Ended` behind the last of them.
    ///
    /// Where the machine holds a link, the connector's number of links that are out is not 0, and
    /// the client is as the machine's last call left it.
    pub fn step<D: ByteLink, H: Schedule, W: ShutdownWatch, Y: Delay>(
        &mut self,
        machine: &mut RequestMachine<SV, K>,
        client: &mut Connection<D, SV::Kept>,
        outside: &mut Outside<H, W, Y>,
    ) -> RunStep
        requires { links_held ⟦<LinkOf<K> as ByteLink>⟧.state ⟦<LinkOf<K> as ByteLink>⟧.start
            machine.old.machine.phase
            ≤ K.out self.old.connector }
        // The run so far goes on, these links were handed back, and of what the connector has the
        // request took its link, or the one fault of which its attempt's error tells. What it
        // counts of tasks and ends is bounded by the bytes that both links gave. Or an attempt that
        // failed handed its link back, and the run begins anew with the next one behind it.
        ensures steps { (s : Start) (p : Passed) (own : List _)
            → s.most ≡ self.old.conf.max_retries → s.first ≡ machine.old.machine.first
            → CallsSoFar (allowed_by (SV.allows self.old.inner) SV.Modules.allows)
            (SV.mark_of self.old.inner) machine.old.calls machine.old.machine.phase
            → RunSoFar ⟦<LinkOf<K> as ByteLink>⟧.state ⟦<LinkOf<K> as ByteLink>⟧.start (called_to s
            (log_of machine.old.calls)) p
            (world_of D.state client.old (K.fault_count self.old.connector)) own
            machine.old.machine.phase
            → StepsOn ⟦<LinkOf<K> as ByteLink>⟧.state ⟦<LinkOf<K> as ByteLink>⟧.start (called_to s
            (log_of machine.old.calls))
            (called_to s (log_of machine.new.calls)) p
            (world_of D.state client.new (K.fault_count self.new.connector)) own
            (K.returned self.old.connector) (K.returned self.new.connector)
            (K.refusals self.old.connector) (K.refusals self.new.connector)
            (K.stock self.old.connector) (K.stock self.new.connector)
            (D.state client.old.link) client.old.ahead machine.old.machine.work
            machine.new.machine.work machine.old.machine.phase machine.new.machine.phase }
        // The log goes on with the calls of this step, if it made any: each is allowed where it
        // stood, and they come in order. The log ends at the mark of the context that is held.
        ensures calls { (s : Start) (p : Passed) (own : List _)
            → s.most ≡ self.old.conf.max_retries → s.first ≡ machine.old.machine.first
            → CallsSoFar (allowed_by (SV.allows self.old.inner) SV.Modules.allows)
            (SV.mark_of self.old.inner) machine.old.calls machine.old.machine.phase
            → RunSoFar ⟦<LinkOf<K> as ByteLink>⟧.state ⟦<LinkOf<K> as ByteLink>⟧.start (called_to s
            (log_of machine.old.calls)) p
            (world_of D.state client.old (K.fault_count self.old.connector)) own
            machine.old.machine.phase
            → CallsSoFar (allowed_by (SV.allows self.old.inner) SV.Modules.allows)
            (SV.mark_of self.old.inner) machine.new.calls machine.new.machine.phase }
        ensures logs { machine.old.machine.work.called ≤ length (log_of machine.old.calls)
            → machine.new.machine.work.called ≤ length (log_of machine.new.calls) }
        // One call at most is made, but where an exchange begins or is under way: those of filters.
        ensures once { is_exchanging machine.old.machine.phase ≡ false
            → length (log_of machine.new.calls) ≤ 1 + length (log_of machine.old.calls) }
        ensures front { IsFrontOf (log_of machine.old.calls) (log_of machine.new.calls) }
        // The purger is asked once in the step behind which the log tells of a purge, and then for
        // just that, and in no other; but also in one with which the request ended, where memory
        // was wanted behind its answer.
        ensures purger { CallsSoFar (allowed_by (SV.allows self.old.inner) SV.Modules.allows)
            (SV.mark_of self.old.inner) machine.old.calls machine.old.machine.phase
            → AsksPurger (P.state self.old.purger) (P.state self.new.purger)
            (log_of machine.old.calls) (log_of machine.new.calls) machine.new.machine.phase }
        // Where it was asked for subrequests in this step, and goes on, it has modules behind that
        // where the proxy makes them, and else those that it had.
        ensures made { AreMadeIn self.old.makes_modules machine.old.machine.phase
            machine.old.calls machine.new.calls }
        // Before there is a link it moved something of the client, or went on to its next phase; in
        // an exchange it asked a link once, or none and it moved a task or brought an end, by the
        // branch that it took. It waits only where a link answered so in this step; and in silence
        // all that can be done asks a link that is silent on it, and neither link changed. Or it
        // moved, and hooks were called.
        ensures cause { HasCause ⟦<LinkOf<K> as ByteLink>⟧.state ⟦<LinkOf<K> as ByteLink>⟧.start
            (log_of machine.old.calls)
            (world_of D.state client.old (K.fault_count self.old.connector))
            (world_of D.state client.new (K.fault_count self.new.connector))
            machine.old.machine.phase machine.new.machine.phase result
            ⊎ (((result ≡ RunStep.Moved)
            × (length (log_of machine.old.calls) < length (log_of machine.new.calls)))
            ⊎ ((is_ending machine.new.machine.phase machine.new.calls.at ≡ true)
            × (result ≡ RunStep.Moved))) }
        // What was counted of uses rose by one where one of both links was asked, and else not: the
        // link that was held is held still, or it was handed back.
        ensures uses { (s : Start) (p : Passed) (own : List _)
            → CallsSoFar (allowed_by (SV.allows self.old.inner) SV.Modules.allows)
            (SV.mark_of self.old.inner) machine.old.calls machine.old.machine.phase
            → RunSoFar ⟦<LinkOf<K> as ByteLink>⟧.state ⟦<LinkOf<K> as ByteLink>⟧.start (called_to s
            (log_of machine.old.calls)) p
            (world_of D.state client.old (K.fault_count self.old.connector)) own
            machine.old.machine.phase
            → CountsUses machine.old.machine.work.used machine.new.machine.work.used
            (D.state client.old.link) (D.state client.new.link)
            (held_state ⟦<LinkOf<K> as ByteLink>⟧.state machine.old.machine.phase)
            (StandsBehind ⟦<LinkOf<K> as ByteLink>⟧.state (K.returned self.old.connector)
            (K.returned self.new.connector)
            (held_state ⟦<LinkOf<K> as ByteLink>⟧.state machine.new.machine.phase)) }
        // In an exchange that moved, a use, a task or an end was counted, by the branch it took; or
        // it failed, and the client is owed an answer; or hooks were called; or it ended, and hooks
        // are called for that.
        ensures moves { (a : Box _) → machine.old.machine.phase ≡ Phase.Relay a
            → result ≡ RunStep.Moved
            → MovesOn ⟦<LinkOf<K> as ByteLink>⟧.state ⟦<LinkOf<K> as ByteLink>⟧.start
            (log_of machine.old.calls)
            (world_of D.state client.old (K.fault_count self.old.connector))
            (world_of D.state client.new (K.fault_count self.new.connector))
            machine.old.machine.work machine.new.machine.work a.value.exchange
            machine.new.machine.phase ⊎ (OwesAnswer machine.new.machine.phase
            ⊎ ((length (log_of machine.old.calls) < length (log_of machine.new.calls))
            ⊎ (is_ending machine.new.machine.phase machine.new.calls.at ≡ true))) }
        // A step that moved did some work.
        ensures progress { result ≡ RunStep.Moved
            → Rose (total_work machine.old.machine.work) (total_work machine.new.machine.work) }
        // What was counted stays counted.
        ensures grows { Grows machine.old.machine.work machine.new.machine.work }
        // Silence is no work, and a request that has ended does none.
        ensures idle { (result ≡ RunStep.Waited Pause.Silent)
            ⊎ (is_done machine.old.machine.phase machine.old.calls.at ≡ true)
            → machine.new.machine.work ≡ machine.old.machine.work }
        // Each turn that was counted did some work.
        ensures worked { machine.old.machine.turns ≤ total_work machine.old.machine.work
            → machine.new.machine.turns ≤ total_work machine.new.machine.work }
        // The answer says whether the request has ended, and all its hooks were called.
        ensures ended { is_done machine.new.machine.phase machine.new.calls.at ≡ is_end result }
        // A request that has ended stays so.
        ensures rests { is_done machine.old.machine.phase machine.old.calls.at ≡ true
            → result ≡ RunStep.Ended }
        ensures first { machine.new.machine.first ≡ machine.old.machine.first }
        ensures counted { Counts machine.old.machine.turns machine.new.machine.turns result }
        ensures out { K.out self.new.connector
            + links_held ⟦<LinkOf<K> as ByteLink>⟧.state ⟦<LinkOf<K> as ByteLink>⟧.start
            machine.old.machine.phase
            ≡ K.out self.old.connector
            + links_held ⟦<LinkOf<K> as ByteLink>⟧.state ⟦<LinkOf<K> as ByteLink>⟧.start
            machine.new.machine.phase }
        ensures faults { K.fault_count self.old.connector ≤ K.fault_count self.new.connector }
        // No call of a link changes what it was as it was handed out, and the connector's links are
        // those that it had: come back, held by the machine, or left, in order.
        ensures client_start { D.start client.new.link ≡ D.start client.old.link }
        ensures stock { Stocks ⟦<LinkOf<K> as ByteLink>⟧.start
            (K.returned self.old.connector) (K.returned self.new.connector)
            (items_held ⟦<LinkOf<K> as ByteLink>⟧.start machine.old.machine.phase)
            (items_held ⟦<LinkOf<K> as ByteLink>⟧.start machine.new.machine.phase)
            (K.stock self.old.connector) (K.stock self.new.connector) }
        ensures kept { client.new.kept ≡ client.old.kept }
        // Beside the links and the connector it asks the schedule, and hands over each delay that a
        // call of this step asked for.
        ensures outside { outside.new ≡ record outside.old {
          schedule = outside.new.schedule;
          delay = outside.new.delay;
        } }
        ensures delays { HandsOver (Y.calls outside.old.delay) (Y.total outside.old.delay)
            (Y.calls outside.new.delay) (Y.total outside.new.delay)
            (delays_since (log_of machine.old.calls) (log_of machine.new.calls)) }
        ensures same { self.new ≡ record self.old {
          connector = self.new.connector;
          purger = self.new.purger;
        } }
    {
        let handed = machine.delays_asked();
        if let Some(goes_back) = machine.goes_on_last() {
            let step = self.call_last(machine, goes_back);
            machine.hand_delays(handed, &mut outside.delay);
            return step;
        }
        if machine.is_over() {
            return machine.rest();
        }
        let step = self.advance(machine, client, outside);
        machine.hand_delays(handed, &mut outside.delay);
        machine.answer(step)
    }

    /// Calls the hook that comes next of the end of a request that has ended, and answers whether
    /// another follows.
    fn call_last(&self, machine: &mut RequestMachine<SV, K>, goes_back: bool) -> RunStep
        requires { last_of machine.old.machine.phase machine.old.calls.at ≡ Some goes_back }
        ensures calls { CallsLast (allowed_by (SV.allows self.now.inner) SV.Modules.allows)
            (SV.mark_of self.now.inner) goes_back machine.old.calls machine.new.calls }
        ensures phase { machine.new.machine.phase ≡ machine.old.machine.phase }
        ensures first { machine.new.machine.first ≡ machine.old.machine.first }
        ensures counts { CountsLast machine.old.calls machine.new.calls machine.old.machine
            machine.new.machine }
        ensures counted { Counts machine.old.machine.turns machine.new.machine.turns result }
        ensures logs { machine.old.machine.work.called ≤ length (log_of machine.old.calls)
            → machine.new.machine.work.called ≤ length (log_of machine.new.calls) }
        ensures progress { result ≡ RunStep.Moved
            → Rose (total_work machine.old.machine.work) (total_work machine.new.machine.work) }
        ensures grows { Grows machine.old.machine.work machine.new.machine.work }
        ensures worked { machine.old.machine.turns ≤ total_work machine.old.machine.work
            → machine.new.machine.turns ≤ total_work machine.new.machine.work }
        ensures answer { result ≡ answer_of (is_ending machine.new.machine.phase
            machine.new.calls.at) RunStep.Ended }
    {
        let work = call_last(&self.inner, &mut machine.calls, goes_back);
        machine.machine.turns = count_turn(machine.machine.turns, work);
        machine.machine.work = machine.machine.work.plus(work);
        machine.answer(RunStep::Ended)
    }

    /// Takes one turn of a request that has not ended, or is still to give its link back. The
    /// answer says whether it has ended, but for the hooks of its end.
    fn advance<D: ByteLink, H: Schedule, W: ShutdownWatch, Y: Delay>(
        &mut self,
        machine: &mut RequestMachine<SV, K>,
        client: &mut Connection<D, SV::Kept>,
        outside: &mut Outside<H, W, Y>,
    ) -> RunStep
        requires { links_held ⟦<LinkOf<K> as ByteLink>⟧.state ⟦<LinkOf<K> as ByteLink>⟧.start
            machine.old.machine.phase
            ≤ K.out self.old.connector }
        // The run so far goes on, these links were handed back, and of what the connector has the
        // request took its link, or the one fault of which its attempt's error tells. What it
        // counts of tasks and ends is bounded by the bytes that both links gave. Or an attempt that
        // failed handed its link back, and the run begins anew with the next one behind it.
        ensures steps { (s : Start) (p : Passed) (own : List _)
            → s.most ≡ self.old.conf.max_retries → s.first ≡ machine.old.machine.first
            → CallsSoFar (allowed_by (SV.allows self.old.inner) SV.Modules.allows)
            (SV.mark_of self.old.inner) machine.old.calls machine.old.machine.phase
            → RunSoFar ⟦<LinkOf<K> as ByteLink>⟧.state ⟦<LinkOf<K> as ByteLink>⟧.start (called_to s
            (log_of machine.old.calls)) p
            (world_of D.state client.old (K.fault_count self.old.connector)) own
            machine.old.machine.phase
            → StepsOn ⟦<LinkOf<K> as ByteLink>⟧.state ⟦<LinkOf<K> as ByteLink>⟧.start (called_to s
            (log_of machine.old.calls))
            (called_to s (log_of machine.new.calls)) p
            (world_of D.state client.new (K.fault_count self.new.connector)) own
            (K.returned self.old.connector) (K.returned self.new.connector)
            (K.refusals self.old.connector) (K.refusals self.new.connector)
            (K.stock self.old.connector) (K.stock self.new.connector)
            (D.state client.old.link) client.old.ahead machine.old.machine.work
            machine.new.machine.work machine.old.machine.phase machine.new.machine.phase }
        // The log goes on with the calls of this step, if it made any: each is allowed where it
        // stood, and they come in order. The log ends at the mark of the context that is held.
        ensures calls { (s : Start) (p : Passed) (own : List _)
            → s.most ≡ self.old.conf.max_retries → s.first ≡ machine.old.machine.first
            → CallsSoFar (allowed_by (SV.allows self.old.inner) SV.Modules.allows)
            (SV.mark_of self.old.inner) machine.old.calls machine.old.machine.phase
            → RunSoFar ⟦<LinkOf<K> as ByteLink>⟧.state ⟦<LinkOf<K> as ByteLink>⟧.start (called_to s
            (log_of machine.old.calls)) p
            (world_of D.state client.old (K.fault_count self.old.connector)) own
            machine.old.machine.phase
            → CallsSoFar (allowed_by (SV.allows self.old.inner) SV.Modules.allows)
            (SV.mark_of self.old.inner) machine.new.calls machine.new.machine.phase }
        ensures logs { machine.old.machine.work.called ≤ length (log_of machine.old.calls)
            → machine.new.machine.work.called ≤ length (log_of machine.new.calls) }
        // One call at most is made, but where an exchange begins or is under way: those of filters.
        ensures once { is_exchanging machine.old.machine.phase ≡ false
            → length (log_of machine.new.calls) ≤ 1 + length (log_of machine.old.calls) }
        ensures front { IsFrontOf (log_of machine.old.calls) (log_of machine.new.calls) }
        // The purger is asked once in the step behind which the log tells of a purge, and then for
        // just that, and in no other; but also in one with which the request ended, where memory
        // was wanted behind its answer.
        ensures purger { CallsSoFar (allowed_by (SV.allows self.old.inner) SV.Modules.allows)
            (SV.mark_of self.old.inner) machine.old.calls machine.old.machine.phase
            → AsksPurger (P.state self.old.purger) (P.state self.new.purger)
            (log_of machine.old.calls) (log_of machine.new.calls) machine.new.machine.phase }
        // Where it was asked for subrequests in this step, and goes on, it has modules behind that
        // where the proxy makes them, and else those that it had.
        ensures made { AreMadeIn self.old.makes_modules machine.old.machine.phase
            machine.old.calls machine.new.calls }
        // Before there is a link it moved something of the client, or went on to its next phase; in
        // an exchange it asked a link once, or none and it moved a task or brought an end, by the
        // branch that it took. It waits only where a link answered so in this step; and in silence
        // all that can be done asks a link that is silent on it, and neither link changed. Or it
        // moved, and hooks were called.
        ensures cause { HasCause ⟦<LinkOf<K> as ByteLink>⟧.state ⟦<LinkOf<K> as ByteLink>⟧.start
            (log_of machine.old.calls)
            (world_of D.state client.old (K.fault_count self.old.connector))
            (world_of D.state client.new (K.fault_count self.new.connector))
            machine.old.machine.phase machine.new.machine.phase result
            ⊎ ((result ≡ RunStep.Moved)
            × (length (log_of machine.old.calls) < length (log_of machine.new.calls))) }
        // What was counted of uses rose by one where one of both links was asked, and else not: the
        // link that was held is held still, or it was handed back.
        ensures uses { (s : Start) (p : Passed) (own : List _)
            → CallsSoFar (allowed_by (SV.allows self.old.inner) SV.Modules.allows)
            (SV.mark_of self.old.inner) machine.old.calls machine.old.machine.phase
            → RunSoFar ⟦<LinkOf<K> as ByteLink>⟧.state ⟦<LinkOf<K> as ByteLink>⟧.start (called_to s
            (log_of machine.old.calls)) p
            (world_of D.state client.old (K.fault_count self.old.connector)) own
            machine.old.machine.phase
            → CountsUses machine.old.machine.work.used machine.new.machine.work.used
            (D.state client.old.link) (D.state client.new.link)
            (held_state ⟦<LinkOf<K> as ByteLink>⟧.state machine.old.machine.phase)
            (StandsBehind ⟦<LinkOf<K> as ByteLink>⟧.state (K.returned self.old.connector)
            (K.returned self.new.connector)
            (held_state ⟦<LinkOf<K> as ByteLink>⟧.state machine.new.machine.phase)) }
        // In an exchange that moved, a use, a task or an end was counted, by the branch it took; or
        // it failed, and the client is owed an answer; or hooks were called.
        ensures moves { (a : Box _) → machine.old.machine.phase ≡ Phase.Relay a
            → result ≡ RunStep.Moved
            → MovesOn ⟦<LinkOf<K> as ByteLink>⟧.state ⟦<LinkOf<K> as ByteLink>⟧.start
            (log_of machine.old.calls)
            (world_of D.state client.old (K.fault_count self.old.connector))
            (world_of D.state client.new (K.fault_count self.new.connector))
            machine.old.machine.work machine.new.machine.work a.value.exchange
            machine.new.machine.phase ⊎ (OwesAnswer machine.new.machine.phase
            ⊎ (length (log_of machine.old.calls) < length (log_of machine.new.calls))) }
        // A step that moved did some work.
        ensures progress { result ≡ RunStep.Moved
            → Rose (total_work machine.old.machine.work) (total_work machine.new.machine.work) }
        // So did one with which the request ended.
        ensures finishes { is_over machine.old.machine.phase ≡ false → result ≡ RunStep.Ended
            → Rose (total_work machine.old.machine.work) (total_work machine.new.machine.work)
            × (machine.new.machine.turns ≡ up machine.old.machine.turns) }
        // What was counted stays counted.
        ensures grows { Grows machine.old.machine.work machine.new.machine.work }
        // Silence is no work, and a request that has ended does none.
        ensures idle { (result ≡ RunStep.Waited Pause.Silent)
            ⊎ (is_over machine.old.machine.phase ≡ true)
            → machine.new.machine.work ≡ machine.old.machine.work }
        // Each turn that was counted did some work.
        ensures worked { machine.old.machine.turns ≤ total_work machine.old.machine.work
            → machine.new.machine.turns ≤ total_work machine.new.machine.work }
        // The answer says whether the request has ended.
        ensures ended { is_over machine.new.machine.phase ≡ is_end result }
        // A request that has ended stays so.
        ensures rests { is_over machine.old.machine.phase ≡ true → result ≡ RunStep.Ended }
        ensures first { machine.new.machine.first ≡ machine.old.machine.first }
        ensures counted { Counts machine.old.machine.turns machine.new.machine.turns result }
        ensures out { K.out self.new.connector
            + links_held ⟦<LinkOf<K> as ByteLink>⟧.state ⟦<LinkOf<K> as ByteLink>⟧.start
            machine.old.machine.phase
            ≡ K.out self.old.connector
            + links_held ⟦<LinkOf<K> as ByteLink>⟧.state ⟦<LinkOf<K> as ByteLink>⟧.start
            machine.new.machine.phase }
        ensures faults { K.fault_count self.old.connector ≤ K.fault_count self.new.connector }
        // No call of a link changes what it was as it was handed out, and the connector's links are
        // those that it had: come back, held by the machine, or left, in order.
        ensures client_start { D.start client.new.link ≡ D.start client.old.link }
        ensures stock { Stocks ⟦<LinkOf<K> as ByteLink>⟧.start
            (K.returned self.old.connector) (K.returned self.new.connector)
            (items_held ⟦<LinkOf<K> as ByteLink>⟧.start machine.old.machine.phase)
            (items_held ⟦<LinkOf<K> as ByteLink>⟧.start machine.new.machine.phase)
            (K.stock self.old.connector) (K.stock self.new.connector) }
        ensures kept { client.new.kept ≡ client.old.kept }
        // Beside the links and the connector it asks the schedule alone.
        ensures outside { outside.new ≡ record outside.old { schedule = outside.new.schedule } }
        ensures same { self.new ≡ record self.old {
          connector = self.new.connector;
          purger = self.new.purger;
        } }
    {
        let Did { step, work } = take_turn(
            self.alloc,
            &self.inner,
            &mut self.connector,
            &mut self.purger,
            self.conf.max_retries,
            self.makes_modules,
            machine.machine.first,
            &mut machine.calls,
            client,
            &mut outside.schedule,
            &mut self.room,
            &mut machine.machine.phase,
        );
        machine.machine.turns = count_turn(machine.machine.turns, work);
        machine.machine.work = machine.machine.work.plus(work);
        settle(&mut self.connector, &mut machine.machine.phase);
        step
    }

    /// Ends a request: a link that is still held goes back and is not kept. One that has not ended,
    /// or of which a hook was to be called, gives `TurnLimit`. The value is what
    /// `persist_connection_context` kept for the next request of the connection, where this one was
    /// served.
    ///
    /// Where the machine holds a link, the connector's number of links that are out is not 0, and
    /// the client is as the machine's last call left it.
    pub fn end<D: ByteLink>(
        &mut self,
        machine: RequestMachine<SV, K>,
        client: &mut Connection<D, SV::Kept>,
    ) -> (Processed, Option<SV::Kept>)
        requires { links_held ⟦<LinkOf<K> as ByteLink>⟧.state ⟦<LinkOf<K> as ByteLink>⟧.start
            machine.machine.phase
            ≤ K.out self.old.connector }
        ensures ends { (s : Start) (p : Passed) (own : List _)
            → RunSoFar ⟦<LinkOf<K> as ByteLink>⟧.state ⟦<LinkOf<K> as ByteLink>⟧.start s p
            (world_of D.state client.old (K.fault_count self.old.connector)) own
            machine.machine.phase
            → ComesToEnd ⟦<LinkOf<K> as ByteLink>⟧.state ⟦<LinkOf<K> as ByteLink>⟧.start s p
            (world_of D.state client.new (K.fault_count self.new.connector)) own
            (K.returned self.old.connector) (K.returned self.new.connector)
            machine.machine.phase machine.calls.at result.0 }
        // It has not ended exactly where it gives `TurnLimit`.
        ensures limit { is_done machine.machine.phase machine.calls.at ≡ false
            → result.0.outcome ≡ Outcome.TurnLimit }
        ensures lost { HasLost machine.machine.phase → result.0.outcome ≡ Outcome.OutOfMemory }
        ensures turns { result.0.history.turns_taken ≡ machine.machine.turns }
        ensures moved { result.0.history.tasks_moved ≡ machine.machine.work.moved }
        ensures used { result.0.history.items_used ≡ machine.machine.work.used }
        ensures sides { result.0.history.sides_ended ≡ machine.machine.work.ended }
        ensures log { result.0.history.log ≡ log_of machine.calls }
        ensures faults { K.fault_count self.new.connector ≡ K.fault_count self.old.connector }
        ensures refusals { K.refusals self.new.connector ≡ K.refusals self.old.connector }
        ensures offers { K.stock self.new.connector ≡ K.stock self.old.connector }
        ensures out { K.out self.new.connector
            + links_held ⟦<LinkOf<K> as ByteLink>⟧.state ⟦<LinkOf<K> as ByteLink>⟧.start
            machine.machine.phase
            ≡ K.out self.old.connector }
        ensures links { all_links ⟦<LinkOf<K> as ByteLink>⟧.start (K.returned self.new.connector) []
            ≡ all_links ⟦<LinkOf<K> as ByteLink>⟧.start (K.returned self.old.connector)
            (items_held ⟦<LinkOf<K> as ByteLink>⟧.start machine.machine.phase) }
        ensures kept { result.1 ≡ kept_of result.0.outcome (kept_at machine.calls.at) }
        // A value is kept where `persist_connection_context` was called last, and gave one.
        ensures keeps { CallsSoFar (allowed_by (SV.allows self.old.inner) SV.Modules.allows)
            (SV.mark_of self.old.inner) machine.calls machine.machine.phase → IsSome result.1
            → KeepsValue result.0.history.log }
        ensures client { client.new ≡ client.old }
        ensures same { self.new ≡ record self.old {
          connector = self.new.connector;
          requests_ended = ended_after self.old.requests_ended result.0.outcome;
        } }
    {
        let RequestMachine { machine, calls } = machine;
        let Machine {
            phase,
            first: _,
            turns,
            work,
        } = machine;
        let ending = finish(self.alloc, &mut self.connector, phase);
        let outcome = calls.outcome(ending.outcome);
        let (log, kept) = calls.into_parts();
        let kept = kept_of(outcome, kept);
        let history = RunRecord {
            log,
            attempts: ending.attempts,
            turns_taken: turns,
            tasks_moved: work.moved,
            items_used: work.used,
            sides_ended: work.ended,
        };
        self.requests_ended = count_ended(self.requests_ended, outcome);
        (Processed { outcome, history }, kept)
    }

    /// Processes one request of a client: it is begun, stepped until it has ended, until `turns`
    /// turns were taken or until all that it asks is silent, and then ended.
    ///
    /// The outcome is `NoRequest`, `Refused`, `Served` or `TurnLimit`, each with its cause in terms
    /// of what the links gave and took, or `OutOfMemory`.
    pub fn process_new_http<D: ByteLink, H: Schedule, W: ShutdownWatch, Y: Delay>(
        &mut self,
        client: &mut Connection<D, SV::Kept>,
        outside: &mut Outside<H, W, Y>,
        turns: u64,
    ) -> Processed
        ensures processes { Processes ⟦<LinkOf<K> as ByteLink>⟧.state
            ⟦<LinkOf<K> as ByteLink>⟧.start
            (called_to (start_of self.old.conf.max_retries
            (world_of D.state client.old (K.fault_count self.old.connector))) result.history.log)
            (world_of D.state client.new (K.fault_count self.new.connector))
            (K.returned self.old.connector) (K.returned self.new.connector)
            (K.refusals self.old.connector) (K.refusals self.new.connector)
            (K.stock self.old.connector) (K.stock self.new.connector)
            (D.state client.old.link) turns result }
        ensures within { result.history.turns_taken ≤ turns }
        // Each entry of the log tells a call that the application allows where it stood, and they
        // come in order.
        ensures logged { (at : Station) × IsLogged
            (allowed_by (SV.allows self.old.inner) SV.Modules.allows) result.history.log at }
        // Each turn that was counted did some work, or called a hook.
        ensures worked { result.history.turns_taken ≤ result.history.items_used
            + result.history.tasks_moved + result.history.sides_ended
            + length result.history.log }
        ensures out { K.out self.new.connector ≡ K.out self.old.connector }
        // The client's link is the one that it was, and the connector's links are those that it
        // had.
        ensures client_start { D.start client.new.link ≡ D.start client.old.link }
        ensures stock { Stocks ⟦<LinkOf<K> as ByteLink>⟧.start
            (K.returned self.old.connector) (K.returned self.new.connector) [] []
            (K.stock self.old.connector) (K.stock self.new.connector) }
        // Beside the links and the connector it asks the schedule, and hands over each delay that
        // the log tells.
        ensures outside { outside.new ≡ record outside.old {
          schedule = outside.new.schedule;
          delay = outside.new.delay;
        } }
        ensures delays { HandsOver (Y.calls outside.old.delay) (Y.total outside.old.delay)
            (Y.calls outside.new.delay) (Y.total outside.new.delay)
            (delays_of result.history.log) }
        // A value is kept where `persist_connection_context` was called last, and gave one.
        ensures kept { IsSome client.new.kept → KeepsValue result.history.log }
        // The purger is asked for each purge of which the log tells, and for just that; or once
        // more, for what the last call asked, where the request ended for want of memory.
        ensures purger { HasPurged (P.state self.old.purger) (P.state self.new.purger)
            result.history.log result.outcome }
        ensures same { self.new ≡ record self.old {
          connector = self.new.connector;
          purger = self.new.purger;
          requests_ended = ended_after self.old.requests_ended result.outcome;
        } }
    {
        let kept = client.take_kept();
        let mut machine = self.begin(client, kept);
        for _turn in 0..turns {
            let step = self.step(&mut machine, client, outside);
            if is_stop(step) {
                return self.close(machine, client);
            }
        }
        self.close(machine, client)
    }

    /// Ends a request, and keeps its value in the connection.
    fn close<D: ByteLink>(
        &mut self,
        machine: RequestMachine<SV, K>,
        client: &mut Connection<D, SV::Kept>,
    ) -> Processed
        requires { links_held ⟦<LinkOf<K> as ByteLink>⟧.state ⟦<LinkOf<K> as ByteLink>⟧.start
            machine.machine.phase
            ≤ K.out self.old.connector }
        ensures ends { (s : Start) (p : Passed) (own : List _)
            → RunSoFar ⟦<LinkOf<K> as ByteLink>⟧.state ⟦<LinkOf<K> as ByteLink>⟧.start s p
            (world_of D.state client.old (K.fault_count self.old.connector)) own
            machine.machine.phase
            → ComesToEnd ⟦<LinkOf<K> as ByteLink>⟧.state ⟦<LinkOf<K> as ByteLink>⟧.start s p
            (world_of D.state client.new (K.fault_count self.new.connector)) own
            (K.returned self.old.connector) (K.returned self.new.connector)
            machine.machine.phase machine.calls.at result }
        ensures lost { HasLost machine.machine.phase → result.outcome ≡ Outcome.OutOfMemory }
        ensures turns { result.history.turns_taken ≡ machine.machine.turns }
        ensures moved { result.history.tasks_moved ≡ machine.machine.work.moved }
        ensures used { result.history.items_used ≡ machine.machine.work.used }
        ensures sides { result.history.sides_ended ≡ machine.machine.work.ended }
        ensures faults { K.fault_count self.new.connector ≡ K.fault_count self.old.connector }
        ensures refusals { K.refusals self.new.connector ≡ K.refusals self.old.connector }
        ensures offers { K.stock self.new.connector ≡ K.stock self.old.connector }
        ensures out { K.out self.new.connector
            + links_held ⟦<LinkOf<K> as ByteLink>⟧.state ⟦<LinkOf<K> as ByteLink>⟧.start
            machine.machine.phase
            ≡ K.out self.old.connector }
        ensures links { all_links ⟦<LinkOf<K> as ByteLink>⟧.start (K.returned self.new.connector) []
            ≡ all_links ⟦<LinkOf<K> as ByteLink>⟧.start (K.returned self.old.connector)
            (items_held ⟦<LinkOf<K> as ByteLink>⟧.start machine.machine.phase) }
        ensures link { client.new.link ≡ client.old.link }
        ensures ahead { client.new.ahead ≡ client.old.ahead }
        // A value is kept where `persist_connection_context` was called last, and gave one.
        ensures keeps { CallsSoFar (allowed_by (SV.allows self.old.inner) SV.Modules.allows)
            (SV.mark_of self.old.inner) machine.calls machine.machine.phase
            → client.old.kept ≡ None → IsSome client.new.kept → KeepsValue result.history.log }
        ensures log { result.history.log ≡ log_of machine.calls }
        ensures same { self.new ≡ record self.old {
          connector = self.new.connector;
          requests_ended = ended_after self.old.requests_ended result.outcome;
        } }
    {
        let (processed, kept) = self.end(machine, client);
        if let Some(value) = kept {
            client.set_kept(value);
        }
        processed
    }
}

/// Whether a call takes no more steps after this answer: the request has ended, or all that it asks
/// is silent.
fn is_stop(step: RunStep) -> bool
    ensures { result ≡ is_stop step }
{
    match step {
        RunStep::Moved | RunStep::Waited(Pause::NotReady) => false,
        RunStep::Waited(Pause::Silent) | RunStep::Ended => true,
    }
}

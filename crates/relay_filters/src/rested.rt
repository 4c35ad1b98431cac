//! The client's side behind filters without the application that has them, and without the session
//! and the context that hooks are shown: all of it that is held between two turns.
ghost use Rattle.std.specs.Prelude.{◌≡◌, ◌&&◌, ◌<◌, ◌+◌, ◌^◌, ◌-◌, [], None, Some, IsSome, IfOk, IfErr, drop, false, length, min, is_some, option_map, unwrap_or, true};
ghost use Rattle.std.specs.List.{list_any};
ghost use Rattle.relay_tasks.specs.Log.{delays_of};
ghost use Rattle.relay_tasks.specs.Task.{is_end};
ghost use Rattle.relay_tasks.specs.declared.error.Fail.TheVariants as fail;
ghost use Rattle.relay_session.specs.Reading.{head_of, is_body_done};
ghost use Rattle.relay_core.specs.Past.{Origin, DownPast};
ghost use Rattle.relay_core.specs.Piece.{put_of, task_put_of};
ghost use Rattle.relay_core.specs.Told.{failed};
ghost use Rattle.relay_calls.specs.Log.{IsAllowed};
ghost use Rattle.relay_sides.specs.Filtered.{is_head_request};
ghost use Rattle.relay_filters.specs.Delay.{summed};
ghost use Rattle.relay_filters.specs.Request.{Filters, is_last};
ghost use Rattle.relay_filters.specs.Response.{SomeAllow};
ghost use Rattle.relay_filters.specs.Hooked.{HookedPast, InnerPast, PastBy, failure_in_front, is_lost, put_by, refused_at_once, seen_by, state_of_side};

use crate::lent::pass_piece;
use relay_core::{Down, Piece, Told};
use relay_hooks::{ProxyHttp, Session};
use relay_session::Front;
use relay_sides::ClientSide;
use relay_tasks::{Error, Fail, HttpTask, PhaseLog, Result, TaskList};

/// What a side showed when it stopped: whether the client's body had ended, before the piece that
/// did not pass, and whether output was pending.
#[derive(Clone, Copy, Debug, PartialEq, Eq)]
pub(crate) struct Shown {
    pub(crate) body_done: bool,
    pub(crate) pending: bool,
}

/// A client's side behind filters, without the application, the session and the context. It borrows
/// nothing; for a turn `Hooked::over` borrows it.
#[derive(Drop)]
pub struct Rested {
    // Has the client's session, but while hooks are called.
    pub(crate) inner: ClientSide,
    pub(crate) told: Told,
    // Whether the request is a HEAD, whose response has no body.
    pub(crate) of_head: bool,
    // How many of the log's delays were taken.
    pub(crate) counted: usize,
    // Whether the request had ended before the first piece.
    pub(crate) at_first: bool,
    // Whether the request has ended for the upstream.
    pub(crate) ended: bool,
    // Why nothing is read or taken any more, once a filter refused something.
    pub(crate) stopped: Option<Fail>,
    // Whether the inner side refused a batch: then no more is taken.
    pub(crate) refused: bool,
    // Whether modules stood for each batch that passed its filters.
    pub(crate) stood: bool,
    // What the side showed when it stopped.
    pub(crate) was: Shown,
}

/// The error of a failure in front.
fn failure_in_front(tasks: &TaskList) -> Option<Error>
    ensures { result ≡ failure_in_front tasks.now }
{
    match tasks.get(0) {
        Some(HttpTask::Failed(error)) => Some(*error),
        Some(_) | None => None,
    }
}

/// The error of a failure in front, or else that one.
fn failure_or(tasks: &TaskList, why: Fail) -> Fail
    ensures { result
        ≡ unwrap_or (option_map fail.Error (failure_in_front tasks.now)) why }
{
    match failure_in_front(tasks) {
        Some(error) => Fail::Error(error),
        None => why,
    }
}

/// The delays from that place on, summed. A sum that does not fit stands at the last value.
fn sum_from(delays: &[u64], first: usize) -> u64
    ensures { result ≡ min (summed (drop first delays.now)) (2 ^ 64 - 1) }
{
    let mut sum = 0_u64;
    let mut at = first;
    while at < delays.len() {
        sum = sum.saturating_add(delays[at]);
        at += 1;
    }
    sum
}

/// Whether memory was wanted in a call of a hook, of what stopped a side.
fn is_lost(stopped: Option<Fail>) -> bool
    ensures { result ≡ is_lost stopped }
{
    match stopped {
        None | Some(Fail::Error(_)) => false,
        Some(Fail::OutOfMemory) => true,
    }
}

/// Whether modules stood for each batch, one more included that passed as they stand.
pub(crate) fn still_stood<M>(stood: bool, session: &Session<M>) -> bool
    ensures { result ≡ (stood && is_some session.now.modules) }
{
    stood && session.modules.is_some()
}

impl Rested {
    /// A side over that one, which nothing has stopped; `ended` says that the request has ended.
    fn new(inner: ClientSide, told: Told, of_head: bool, counted: usize, ended: bool) -> Rested
        ensures { result ≡ record {
          inner = inner;
          told = told;
          of_head = of_head;
          counted = counted;
          at_first = ended;
          ended = ended;
          stopped = None;
          refused = false;
          stood = true;
          was = record { body_done = false; pending = false };
        } }
    {
        Rested {
            inner,
            told,
            of_head,
            counted,
            at_first: ended,
            ended,
            stopped: None,
            refused: false,
            stood: true,
            was: Shown {
                body_done: false,
                pending: false,
            },
        }
    }

    /// The side over that one; the calls of its application are to stand behind that log. `ended`
    /// says that the request ended with its head, `of_head` that it is a HEAD. It tells what the
    /// inner one has told, which has the client's session: what stands in its place in the session
    /// beside the side is shown to no hook.
    ///
    /// What passed is as inside, where nothing was put or taken yet and the client's head was read.
    pub fn begin<F: Front>(inner: ClientSide, log: &PhaseLog, ended: bool, of_head: bool) -> Rested
        ensures inner { result.inner ≡ inner }
        ensures begins { (client : F) (s : Origin) (p : DownPast)
            → IsSome (head_of inner.session.reading) → p.put ≡ [] → p.batched ≡ []
            → of_head ≡ is_head_request s.head.method
            → PastBy s (F.state client) (F.ahead client) inner inner.session p
            → s.called ≡ log.now
            → HookedPast (InnerPast result.stopped s (F.state client) (F.ahead client) result.inner)
            s.head.method result.inner.session s.called log.now result.of_head result.at_first
            result.ended false result.refused result.stood result.stopped result.told
            result.inner.told p }
        // Nothing has stopped it, and it has told what its inner side has.
        ensures at_first { result.at_first ≡ ended }
        ensures ended { result.ended ≡ ended }
        ensures of_head { result.of_head ≡ of_head }
        ensures stopped { result.stopped ≡ None }
        ensures refused { result.refused ≡ false }
        ensures told { result.told ≡ inner.told }
        ensures counted { result.counted ≡ length (delays_of log.now) }
        ensures stood { result.stood ≡ true }
    {
        let told = Down::<F>::told(&inner);
        Rested::new(inner, told, of_head, log.delays().len(), ended)
    }

    /// The side of an attempt that puts again what was read of the body, as `begin`, and what
    /// passes of that: `first` is all that was read, as one piece, with the end of a body that has
    /// ended. It passes the filters of requests, before any piece that is read. What passes is put
    /// first. An error of one of them stops the side before anything was put.
    ///
    /// What passed is as inside, where that piece was put and nothing was taken yet.
    pub fn begin_again<SV: ProxyHttp, F: Front>(
        app: &SV,
        session: &mut Session<SV::Modules>,
        ctx: &mut SV::CTX,
        inner: ClientSide,
        first: Piece,
        of_head: bool,
    ) -> (Rested, Result<Piece>)
        requires { IsSome (head_of inner.session.reading) }
        ensures begins { (client : F) (s : Origin) (p : DownPast) → p.put ≡ put_of false first
            → is_some (task_put_of false first) ≡ true → p.batched ≡ []
            → (is_last first ≡ true → list_any is_end (put_of false first) ≡ true)
            → of_head ≡ is_head_request s.head.method
            → PastBy s (F.state client) (F.ahead client) inner inner.session p
            → s.called ≡ session.old.seen.log
            → HookedPast (InnerPast result.0.stopped s (F.state client) (F.ahead client)
            result.0.inner) s.head.method result.0.inner.session s.called session.new.seen.log
            result.0.of_head result.0.at_first result.0.ended false result.0.refused result.0.stood
            result.0.stopped result.0.told result.0.inner.told
            (record p { put = put_by result.1 }) }
        // The request has ended where it ends with what passes, and the client's body where it had.
        ensures ended { IfOk result.1 (λ made. result.0.ended ≡ made.upstream_end) }
        ensures end { IfOk result.1 (λ made. is_last first ≡ true → made.upstream_end ≡ true) }
        ensures body { IfOk result.1 (λ made. is_body_done result.0.inner.session.reading
            ≡ is_body_done inner.session.reading) }
        ensures goes_on { IfOk result.1 (λ made. result.0.stopped ≡ None) }
        ensures failed { IfErr result.1 (λ why. result.0.stopped ≡ Some why) }
        // The calls for that piece, the modules' where they stand and the application's, are the
        // only ones, and stand behind all that stood in the log; one in which memory was wanted has
        // no entry. Of the inner side hooks change the session alone.
        ensures filters { Filters (IsAllowed (SV.allows app.now) (SomeAllow SV.Modules.allows))
            (is_some session.old.modules) false first result.1
            (seen_by session.old.seen inner.session) (SV.mark_of app.now ctx.old)
            (seen_by session.new.seen result.0.inner.session) (SV.mark_of app.now ctx.new) }
        ensures rest { result.0.inner ≡ record inner { session = result.0.inner.session } }
        ensures at_first { result.0.at_first ≡ false }
        ensures of_head { result.0.of_head ≡ of_head }
        ensures refused { result.0.refused ≡ false }
        ensures told { IfOk result.1 (λ made. result.0.told ≡ inner.told) }
        ensures tells { IfErr result.1 (λ why. result.0.told ≡ failed why inner.told) }
        ensures counted { result.0.counted ≡ length (delays_of session.old.seen.log) }
        ensures stood { result.0.stood ≡ true }
    {
        let counted = session.phase_log().delays().len();
        let told = Down::<F>::told(&inner);
        let mut side = Rested::new(inner, told, of_head, counted, false);
        let was = side.shows::<F>();
        match pass_piece(app, session, ctx, &mut side.inner, false, first) {
            Ok(made) => {
                side.ended = made.upstream_end;
                (side, Ok(made))
            }
            Err(why) => {
                side.stop(why, was);
                (side, Err(why))
            }
        }
    }

    /// Why a batch is refused before any filter is called: the side has stopped, or its inner one
    /// refused a batch before, or the client's session has no head, and so no hook may be lent it.
    /// A failure in front is answered with its error. Where no error is there to be told, it is out
    /// of memory.
    pub(crate) fn refused_at_once(&self, tasks: &TaskList) -> Option<Fail>
        ensures { result ≡ refused_at_once self.now.stopped self.now.refused
            (is_some (head_of self.now.inner.session.reading)) tasks.now }
    {
        match self.stopped {
            Some(why) => Some(failure_or(tasks, why)),
            None if self.refused => Some(failure_or(tasks, Fail::OutOfMemory)),
            None if self.inner.session().has_head() => None,
            None => Some(Fail::OutOfMemory),
        }
    }

    /// Something that a filter refused stops the side, which showed that before.
    pub(crate) fn stop(&mut self, why: Fail, was: Shown)
        ensures { self.new ≡ record self.old {
          stopped = Some why;
          was = was;
          told = failed why self.old.told;
        } }
    {
        self.stopped = Some(why);
        self.was = was;
        self.told = self.told.failed(why);
    }

    /// The inner side alone.
    pub fn into_inner(self) -> ClientSide
        ensures { result ≡ self.inner }
    {
        let Rested {
            inner,
            told: _,
            of_head: _,
            counted: _,
            at_first: _,
            ended: _,
            stopped: _,
            refused: _,
            stood: _,
            was: _,
        } = self;
        inner
    }

    /// The inner side, which has the client's session.
    pub fn inner(&self) -> &ClientSide
        ensures { result.now ≡ self.now.inner }
    {
        &self.inner
    }

    /// The delay in milliseconds that the filters of pieces asked for since it was last taken, or
    /// since the side was made: the sum over the calls in that log, which is the session's, and 0
    /// where none asked. A sum that does not fit stands at the last value.
    pub fn take_delay(&mut self, log: &PhaseLog) -> u64
        ensures sum { result
            ≡ min (summed (drop self.old.counted (delays_of log.now))) (2 ^ 64 - 1) }
        ensures counted { self.new ≡ record self.old { counted = length (delays_of log.now) } }
    {
        let delays = log.delays();
        let sum = sum_from(delays, self.counted);
        self.counted = delays.len();
        sum
    }

    /// Whether modules stood for each batch that passed its filters so far.
    pub fn modules_stood(&self) -> bool
        ensures { result ≡ self.now.stood }
    {
        self.stood
    }

    /// What the side shows while it has not stopped.
    pub(crate) fn shows<F: Front>(&self) -> Shown
        ensures body { result.body_done ≡ is_body_done self.now.inner.session.reading }
        ensures pending { result.pending ≡ (state_of_side self.now.inner).pending }
    {
        Shown {
            body_done: Down::<F>::body_done(&self.inner),
            pending: Down::<F>::has_pending(&self.inner),
        }
    }

    /// Whether memory was wanted in a call of a hook: the client's session may be anything then.
    pub fn is_lost(&self) -> bool
        ensures { result ≡ is_lost self.now.stopped }
    {
        is_lost(self.stopped)
    }
}

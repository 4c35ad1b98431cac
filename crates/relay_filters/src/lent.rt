//! The client's own session, lent to hooks: for the calls that a piece or a batch leads to it
//! stands in the session that they are shown, and goes back behind them.
ghost use Rattle.std.specs.Prelude.{◌≡◌, ◌<◌, ◌∷◌, [], length, is_some, IsSome, IfOk, IfErr, OnOk};
ghost use Rattle.std.specs.List.{list_any};
ghost use Rattle.relay_tasks.specs.declared.error.Error.{Error};
ghost use Rattle.relay_tasks.specs.declared.error.Fail.TheVariants as fail;
ghost use Rattle.relay_session.specs.Reading.{head_of};
ghost use Rattle.relay_core.specs.Pipe.{is_failure};
ghost use Rattle.relay_calls.specs.Log.{IsAllowed, requests_in};
ghost use Rattle.relay_filters.specs.Chain.{Refuses};
ghost use Rattle.relay_filters.specs.Request.{Filters, pieces_in};
ghost use Rattle.relay_filters.specs.Response.{BatchPasses, BatchStops, Outcome, SomeAllow};
ghost use Rattle.relay_filters.specs.Hooked.{seen_by};

use crate::request::filter_piece;
use crate::response::filter_response;
use relay_core::Piece;
use relay_hooks::{ProxyHttp, Session};
use relay_sides::ClientSide;
use relay_tasks::{HttpTask, Result, TaskList};

/// Passes a piece through the filters of request bodies, which are shown the session of that side.
///
/// As `filter_piece`.
pub(crate) fn pass_piece<SV: ProxyHttp>(
    app: &SV,
    session: &mut Session<SV::Modules>,
    ctx: &mut SV::CTX,
    inner: &mut ClientSide,
    ended: bool,
    piece: Piece,
) -> Result<Piece>
    requires { IsSome (head_of inner.old.session.reading) }
    ensures filters { Filters (IsAllowed (SV.allows app.now) (SomeAllow SV.Modules.allows))
        (is_some session.old.modules) ended piece result
        (seen_by session.old.seen inner.old.session) (SV.mark_of app.now ctx.old)
        (seen_by session.new.seen inner.new.session) (SV.mark_of app.now ctx.new) }
    ensures called { OnOk result (length (pieces_in session.old.seen.log)
        < length (pieces_in session.new.seen.log)) }
    ensures rest { inner.new ≡ record inner.old { session = inner.new.session } }
{
    inner.swap_session(&mut session.seen.downstream);
    let passed = filter_piece(app, session, ctx, ended, piece);
    inner.swap_session(&mut session.seen.downstream);
    passed
}

/// Passes the tasks of a batch through the filters of the application and of the modules, which are
/// shown the session of that side. `of_head` says that the request is a HEAD.
///
/// As `filter_response`.
pub(crate) fn pass_tasks<SV: ProxyHttp>(
    app: &SV,
    session: &mut Session<SV::Modules>,
    ctx: &mut SV::CTX,
    inner: &mut ClientSide,
    of_head: bool,
    tasks: TaskList,
) -> Result<TaskList>
    requires { IsSome (head_of inner.old.session.reading) }
    ensures filters { Outcome (IsAllowed (SV.allows app.now) (SomeAllow SV.Modules.allows))
        (λ es made. BatchPasses of_head (is_some session.new.modules) tasks es made)
        (BatchStops of_head (is_some session.new.modules) tasks) (Refuses of_head) result
        (seen_by session.old.seen inner.old.session) (SV.mark_of app.now ctx.old)
        (seen_by session.new.seen inner.new.session) (SV.mark_of app.now ctx.new) }
    ensures requests { requests_in session.new.seen.log ≡ requests_in session.old.seen.log }
    ensures failures { IfOk result (λ made.
        list_any is_failure made ≡ list_any is_failure tasks) }
    ensures alone { IfOk result (λ made. (e : Error) → tasks ≡ HttpTask.Failed e ∷ []
        → made ≡ HttpTask.Failed e ∷ []) }
    ensures failure { IfErr result (λ why. (e : Error) → tasks ≡ HttpTask.Failed e ∷ []
        → why ≡ fail.OutOfMemory) }
    ensures rest { inner.new ≡ record inner.old { session = inner.new.session } }
{
    inner.swap_session(&mut session.seen.downstream);
    let passed = filter_response(app, session, ctx, of_head, tasks);
    inner.swap_session(&mut session.seen.downstream);
    passed
}

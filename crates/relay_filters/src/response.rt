//! The filters of the response: each task of a batch passes those of the application, and then,
//! once all have, those of the modules (RFC 9110, section 15.2.2; RFC 9112, section 6).
//!
//! Each call is entered in the log of the session. Behind a filter that refuses nothing is called.
//! Before modules are made no module filters: what the application left goes on as it is.
ghost use Rattle.std.specs.Prelude.{◌≡◌, ◌∷◌, List, [], Ok, Err, IsSome, IfOk, IfErr, OnOk, if◌then◌else◌, codes, is_some, true};
ghost use Rattle.http_header.specs.HeaderMap.{RefusesInsert};
ghost use Rattle.relay_tasks.specs.declared.context.Context.TheVariants.{Mismatch101, HeadTooLong};
ghost use Rattle.relay_tasks.specs.declared.error.Error.{Error};
ghost use Rattle.relay_tasks.specs.declared.error.ErrorSource.TheVariants.{Internal};
ghost use Rattle.relay_tasks.specs.declared.error.Fail.TheVariants as fail;
ghost use Rattle.relay_tasks.specs.declared.log.LogEntry.{LogEntry};
ghost use Rattle.relay_tasks.specs.Error.{refused, IsMemoryOr};
ghost use Rattle.relay_h1.specs.ClientHead.{lacks_framing};
ghost use Rattle.relay_h1.specs.Verdict.{refused_from};
ghost use Rattle.relay_session.specs.Reading.{head_of};
ghost use Rattle.relay_modules.specs.Filtering.{ended_by};
ghost use Rattle.relay_sides.specs.Filtered.{inside};
ghost use Rattle.relay_calls.specs.Log.{IsAllowed, requests_in};
ghost use Rattle.relay_core.specs.Pipe.{is_failure};
ghost use Rattle.std.specs.List.{list_any};
ghost use Rattle.relay_filters.specs.Chain.{AllPass, BodyChain, BodyFeeds, FrontPasses, HeadChain, HeadFeeds, ModuleChain, ModuleFeeds, Refuses, TaskChain, TaskFeeds, TrailerChain, TrailerFeeds, UpstreamHead, framed, is_switch, method_of};
ghost use Rattle.relay_filters.specs.Response.{BatchPasses, BatchStops, IsApps, IsModules, Outcome, SomeAllow};

use bytes::Bytes;
use http::Method;
use http_header::HeaderMap;
use relay_calls::{
    call_module_response_body, call_module_response_done, call_module_response_header,
    call_module_response_trailer, call_response_body_filter, call_response_filter,
    call_upstream_response_body_filter, call_upstream_response_filter,
    call_upstream_response_trailer_filter,
};
use relay_h1::{add_chunked, lacks_framing};
use relay_hooks::{ProxyHttp, Session};
use relay_tasks::{Context, Error, ErrorType, Fail, HttpTask, ResponseHeader, Result, TaskList};

// ---- heads

/// The refusal of a head that switches protocols, which has no side yet.
fn mismatch() -> Error
    ensures { result ≡ refused Mismatch101 }
{
    Error::explain(ErrorType::InvalidHTTPHeader, Context::Mismatch101)
}

/// Refuses a head that switches protocols with that error: no upgrade is asked for.
fn check_switch(head: &ResponseHeader, why: Error) -> Result<()>
    ensures { result ≡ (if is_switch head.now then Err (fail.Error why) else Ok tt) }
{
    if head.status() == 101 {
        return Err(Fail::Error(why));
    }
    Ok(())
}

/// Whether nothing says where the body behind that head ends; `of_head` says that the request is a
/// HEAD.
fn has_no_end(of_head: bool, end: bool, head: &ResponseHeader) -> bool
    ensures { result ≡ lacks_framing (method_of of_head) end head.now }
{
    if of_head {
        lacks_framing(&Method::HEAD, end, head)
    } else {
        lacks_framing(&Method::GET, end, head)
    }
}

/// A failure as one of the relay's own.
fn inside(fail: Fail) -> Fail
    ensures { result ≡ inside fail }
{
    match fail {
        Fail::OutOfMemory => Fail::OutOfMemory,
        Fail::Error(error) => Fail::Error(error.into_in()),
    }
}

/// Chunks a head whose body would last until the link ends.
///
/// `InvalidHTTPHeader` of the relay's own side, about `HeadTooLong`: only where the field list is
/// full.
fn frame_head(of_head: bool, head: &mut ResponseHeader, end: bool) -> Result<()>
    ensures ok { OnOk result (head.new ≡ framed of_head end head.old) }
    ensures causes { IfErr result (IsMemoryOr (refused_from Internal HeadTooLong)) }
    ensures lacks { IfErr result (λ _. lacks_framing (method_of of_head) end head.old ≡ true) }
    ensures full { IfErr result (λ why. (e : Error) → why ≡ fail.Error e
        → RefusesInsert head.old.fields (codes "transfer-encoding")) }
{
    if !has_no_end(of_head, end, head) {
        return Ok(());
    }
    match add_chunked(head) {
        Ok(()) => Ok(()),
        Err(why) => Err(inside(why)),
    }
}

/// Passes a head through the filter of the upstream, and makes it ready for that of the response.
///
/// The error of the filter, which stands in its entry. `InvalidHTTPHeader`: of the upstream's side,
/// about `Mismatch101`, where the filter left a head that switches protocols; of the relay's own,
/// about `HeadTooLong`, where it left one that has no room for its framing.
fn filter_upstream_head<SV: ProxyHttp>(
    app: &SV,
    session: &mut Session<SV::Modules>,
    ctx: &mut SV::CTX,
    of_head: bool,
    head: &mut ResponseHeader,
    end: bool,
) -> Result<()>
    requires { IsSome (head_of session.old.seen.downstream.reading) }
    ensures { Outcome (IsAllowed (SV.allows app.now) (SomeAllow SV.Modules.allows))
        (λ es _. UpstreamHead of_head head.old end es head.new) (HeadFeeds of_head head.old end)
        (Refuses of_head) result session.old.seen (SV.mark_of app.now ctx.old)
        session.new.seen (SV.mark_of app.now ctx.new) }
{
    call_upstream_response_filter(app, session, ctx, head, end)?;
    check_switch(head, mismatch().into_up())?;
    frame_head(of_head, head, end)
}

/// Passes a head through the filters of the application.
///
/// As `filter_upstream_head`; the error of the filter of the response, which stands in its entry;
/// and `InvalidHTTPHeader` of the relay's own side, about `Mismatch101`, where that left a head
/// that switches protocols.
fn filter_head<SV: ProxyHttp>(
    app: &SV,
    session: &mut Session<SV::Modules>,
    ctx: &mut SV::CTX,
    of_head: bool,
    head: &mut ResponseHeader,
    end: bool,
) -> Result<()>
    requires { IsSome (head_of session.old.seen.downstream.reading) }
    ensures { Outcome (IsAllowed (SV.allows app.now) (SomeAllow SV.Modules.allows))
        (λ es _. HeadChain of_head head.old end es head.new) (HeadFeeds of_head head.old end)
        (Refuses of_head) result session.old.seen (SV.mark_of app.now ctx.old)
        session.new.seen (SV.mark_of app.now ctx.new) }
{
    filter_upstream_head(app, session, ctx, of_head, head, end)?;
    call_response_filter(app, session, ctx, head, end)?;
    check_switch(head, mismatch().into_in())
}

// ---- pieces and trailer fields

/// Passes a piece of the body through the filters of the application. What they ask for as a delay
/// stands in their entries, of which `take_delay` of the side sums it.
///
/// The error of a filter, which stands in its entry.
fn filter_piece<SV: ProxyHttp>(
    app: &SV,
    session: &mut Session<SV::Modules>,
    ctx: &mut SV::CTX,
    of_head: bool,
    body: &mut Option<Bytes>,
    end: bool,
) -> Result<()>
    requires { IsSome (head_of session.old.seen.downstream.reading) }
    ensures { Outcome (IsAllowed (SV.allows app.now) (SomeAllow SV.Modules.allows))
        (λ es _. BodyChain body.old end es body.new) (BodyFeeds body.old end)
        (Refuses of_head) result session.old.seen (SV.mark_of app.now ctx.old)
        session.new.seen (SV.mark_of app.now ctx.new) }
{
    call_upstream_response_body_filter(app, session, ctx, body, end)?;
    call_response_body_filter(app, session, ctx, body, end)?;
    Ok(())
}

/// Passes trailer fields through the filter of the upstream.
///
/// The error of the filter, which stands in its entry.
fn filter_fields<SV: ProxyHttp>(
    app: &SV,
    session: &mut Session<SV::Modules>,
    ctx: &mut SV::CTX,
    of_head: bool,
    fields: &mut HeaderMap,
) -> Result<()>
    requires { IsSome (head_of session.old.seen.downstream.reading) }
    ensures { Outcome (IsAllowed (SV.allows app.now) (SomeAllow SV.Modules.allows))
        (λ es _. TrailerChain fields.old es fields.new) (TrailerFeeds fields.old)
        (Refuses of_head) result session.old.seen (SV.mark_of app.now ctx.old)
        session.new.seen (SV.mark_of app.now ctx.new) }
{
    call_upstream_response_trailer_filter(app, session, ctx, fields)
}

// ---- a task

/// Passes a task through the filters of the application; `of_head` says that the request is a HEAD.
///
/// As the filters of its kind: `filter_head`, `filter_piece`, `filter_fields`.
fn filter_task<SV: ProxyHttp>(
    app: &SV,
    session: &mut Session<SV::Modules>,
    ctx: &mut SV::CTX,
    of_head: bool,
    task: HttpTask,
) -> Result<HttpTask>
    requires { IsSome (head_of session.old.seen.downstream.reading) }
    ensures { Outcome (IsAllowed (SV.allows app.now) (SomeAllow SV.Modules.allows))
        (TaskChain of_head task) (TaskFeeds of_head task)
        (Refuses of_head) result session.old.seen (SV.mark_of app.now ctx.old)
        session.new.seen (SV.mark_of app.now ctx.new) }
{
    match task {
        HttpTask::Header(mut head, end) => {
            filter_head(app, session, ctx, of_head, &mut head, end)?;
            Ok(HttpTask::Header(head, end))
        }
        HttpTask::Body(mut body, end) => {
            filter_piece(app, session, ctx, of_head, &mut body, end)?;
            Ok(HttpTask::Body(body, end))
        }
        HttpTask::UpgradedBody(mut body, end) => {
            filter_piece(app, session, ctx, of_head, &mut body, end)?;
            Ok(HttpTask::UpgradedBody(body, end))
        }
        HttpTask::Trailer(Some(mut fields)) => {
            filter_fields(app, session, ctx, of_head, &mut fields)?;
            Ok(HttpTask::Trailer(Some(fields)))
        }
        HttpTask::Trailer(None) => Ok(HttpTask::Trailer(None)),
        HttpTask::Done => Ok(HttpTask::Done),
        HttpTask::Failed(error) => Ok(HttpTask::Failed(error)),
    }
}

/// Passes the tasks of a batch through the filters of the application, in their order.
///
/// As `filter_task`, for the first task that does not pass.
fn filter_batch<SV: ProxyHttp>(
    app: &SV,
    session: &mut Session<SV::Modules>,
    ctx: &mut SV::CTX,
    of_head: bool,
    mut tasks: TaskList,
) -> Result<TaskList>
    requires { IsSome (head_of session.old.seen.downstream.reading) }
    ensures { Outcome (IsAllowed (SV.allows app.now) (SomeAllow SV.Modules.allows))
        (λ es mid. IsApps es × AllPass (TaskChain of_head) es tasks mid)
        (λ es. IsApps es × FrontPasses (TaskChain of_head) (TaskFeeds of_head) tasks es)
        (Refuses of_head) result session.old.seen (SV.mark_of app.now ctx.old)
        session.new.seen (SV.mark_of app.now ctx.new) }
{
    let mut filtered = TaskList::new(session.seen.alloc);
    while let Some(task) = tasks.take_first() {
        match filter_task(app, session, ctx, of_head, task) {
            Ok(made) => filtered.push(made)?,
            Err(why) => return Err(why),
        }
    }
    Ok(filtered)
}

// ---- the modules

/// Bytes that a filter answered are the last piece of the body; with none the other task stands.
fn ended_by(answer: Option<Bytes>, other: HttpTask) -> HttpTask
    ensures { result ≡ ended_by answer other }
{
    match answer {
        Some(bytes) => HttpTask::Body(Some(bytes), true),
        None => other,
    }
}

/// Passes a head through the filter of the modules.
///
/// The error of the filter, which stands in its entry. `InvalidHTTPHeader` of the relay's own side,
/// about `Mismatch101`, where it left a head that switches protocols.
fn pass_head<SV: ProxyHttp>(
    app: &SV,
    session: &mut Session<SV::Modules>,
    ctx: &SV::CTX,
    of_head: bool,
    mut head: ResponseHeader,
    end: bool,
) -> Result<HttpTask>
    requires read { IsSome (head_of session.old.seen.downstream.reading) }
    requires made { IsSome session.old.modules }
    ensures passes { Outcome (IsAllowed (SV.allows app.now) (SomeAllow SV.Modules.allows))
        (ModuleChain (HttpTask.Header head end)) (ModuleFeeds (HttpTask.Header head end))
        (Refuses of_head) result session.old.seen (SV.mark_of app.now ctx.now)
        session.new.seen (SV.mark_of app.now ctx.now) }
    ensures stands { IsSome session.new.modules }
{
    call_module_response_header(app, session, ctx, &mut head, end)?;
    check_switch(&head, mismatch().into_in())?;
    Ok(HttpTask::Header(head, end))
}

/// Passes a task through the filters of the modules. Bytes that the filter of trailers or of the
/// end answers are the last piece of the body.
///
/// The error of the filter, which stands in its entry; as `pass_head`.
fn pass_task<SV: ProxyHttp>(
    app: &SV,
    session: &mut Session<SV::Modules>,
    ctx: &SV::CTX,
    of_head: bool,
    task: HttpTask,
) -> Result<HttpTask>
    requires read { IsSome (head_of session.old.seen.downstream.reading) }
    requires made { IsSome session.old.modules }
    ensures passes { Outcome (IsAllowed (SV.allows app.now) (SomeAllow SV.Modules.allows))
        (ModuleChain task) (ModuleFeeds task)
        (Refuses of_head) result session.old.seen (SV.mark_of app.now ctx.now)
        session.new.seen (SV.mark_of app.now ctx.now) }
    ensures stands { IsSome session.new.modules }
{
    match task {
        HttpTask::Header(head, end) => pass_head(app, session, ctx, of_head, head, end),
        HttpTask::Body(mut body, end) => {
            call_module_response_body(app, session, ctx, &mut body, end)?;
            Ok(HttpTask::Body(body, end))
        }
        HttpTask::UpgradedBody(mut body, end) => {
            call_module_response_body(app, session, ctx, &mut body, end)?;
            Ok(HttpTask::UpgradedBody(body, end))
        }
        HttpTask::Trailer(mut fields) => {
            let answer = call_module_response_trailer(app, session, ctx, &mut fields)?;
            Ok(ended_by(answer, HttpTask::Trailer(fields)))
        }
        HttpTask::Done => {
            let answer = call_module_response_done(app, session, ctx)?;
            Ok(ended_by(answer, HttpTask::Done))
        }
        HttpTask::Failed(error) => Ok(HttpTask::Failed(error)),
    }
}

/// Passes the tasks of a batch through the filters of the modules, in their order.
///
/// As `pass_task`, for the first task that does not pass.
fn pass_batch<SV: ProxyHttp>(
    app: &SV,
    session: &mut Session<SV::Modules>,
    ctx: &SV::CTX,
    of_head: bool,
    mut tasks: TaskList,
) -> Result<TaskList>
    requires read { IsSome (head_of session.old.seen.downstream.reading) }
    requires made { IsSome session.old.modules }
    ensures passes { Outcome (IsAllowed (SV.allows app.now) (SomeAllow SV.Modules.allows))
        (λ es made. IsModules es × AllPass ModuleChain es tasks made)
        (λ es. IsModules es × FrontPasses ModuleChain ModuleFeeds tasks es)
        (Refuses of_head) result session.old.seen (SV.mark_of app.now ctx.now)
        session.new.seen (SV.mark_of app.now ctx.now) }
    ensures stands { IsSome session.new.modules }
{
    let mut passed = TaskList::new(session.seen.alloc);
    while let Some(task) = tasks.take_first() {
        match pass_task(app, session, ctx, of_head, task) {
            Ok(made) => passed.push(made)?,
            Err(why) => return Err(why),
        }
    }
    Ok(passed)
}

// ---- a batch

/// Passes the tasks of a batch through the filters of the application, all of them, and then
/// through those of the modules, where modules stand. `of_head` says that the request is a HEAD.
///
/// As `filter_task` and `pass_task`, for the first task that does not pass.
pub(crate) fn filter_response<SV: ProxyHttp>(
    app: &SV,
    session: &mut Session<SV::Modules>,
    ctx: &mut SV::CTX,
    of_head: bool,
    tasks: TaskList,
) -> Result<TaskList>
    requires { IsSome (head_of session.old.seen.downstream.reading) }
    ensures filters { Outcome
        (IsAllowed (SV.allows app.now) (SomeAllow SV.Modules.allows))
        (λ es made. BatchPasses of_head (is_some session.new.modules) tasks es made)
        (BatchStops of_head (is_some session.new.modules) tasks)
        (Refuses of_head) result session.old.seen (SV.mark_of app.now ctx.old)
        session.new.seen (SV.mark_of app.now ctx.new) }
    ensures requests { requests_in session.new.seen.log ≡ requests_in session.old.seen.log }
    ensures failures { IfOk result (λ made.
        list_any is_failure made ≡ list_any is_failure tasks) }
    ensures alone { IfOk result (λ made. (e : Error) → tasks ≡ HttpTask.Failed e ∷ []
        → made ≡ HttpTask.Failed e ∷ []) }
    ensures failure { IfErr result (λ why. (e : Error) → tasks ≡ HttpTask.Failed e ∷ []
        → why ≡ fail.OutOfMemory) }
{
    let filtered = filter_batch(app, session, ctx, of_head, tasks)?;
    if session.modules.is_some() {
        pass_batch(app, session, ctx, of_head, filtered)
    } else {
        Ok(filtered)
    }
}

//! The filters of the pieces of the request, the modules' and then the application's: what is left
//! of a piece goes on.
ghost use Rattle.std.specs.Prelude.{◌≡◌, ◌<◌, ◌||◌, false, is_some, length, true, IsSome, OnOk};
ghost use Rattle.relay_session.specs.Reading.{head_of};
ghost use Rattle.relay_calls.specs.Log.{IsAllowed};
ghost use Rattle.relay_filters.specs.Request.{CallsFor, Filters, piece_of, pieces_in};
ghost use Rattle.relay_filters.specs.Response.{SomeAllow};

use bytes::Bytes;
use relay_calls::{call_module_request_body, call_request_body_filter};
use relay_core::Piece;
use relay_hooks::{ProxyHttp, Session};
use relay_tasks::Result;

/// One of two flags stands.
pub(crate) fn either(first: bool, second: bool) -> bool
    ensures { result ≡ first || second }
{
    first || second
}

/// The piece that passes, of what the filters left: nothing once the request has ended. `given`
/// says that they were given one: where they left none then, the request ends.
fn piece_of(ended: bool, end: bool, client_end: bool, given: bool, left: Option<Bytes>) -> Piece
    ensures { result ≡ piece_of ended end client_end given left }
{
    if ended {
        return Piece {
            bytes: None,
            upstream_end: false,
            client_end,
        };
    }
    let upstream_end = end || (given && left.is_none());
    Piece {
        bytes: left,
        upstream_end,
        client_end,
    }
}

/// Calls the application's filter of request bodies with a piece, where no modules stand.
///
/// The error of the filter, which stands in its entry.
fn call_alone<SV: ProxyHttp>(
    app: &SV,
    session: &mut Session<SV::Modules>,
    ctx: &mut SV::CTX,
    body: &mut Option<Bytes>,
    end: bool,
) -> Result<()>
    requires { IsSome (head_of session.old.seen.downstream.reading) }
    ensures { CallsFor (IsAllowed (SV.allows app.now) (SomeAllow SV.Modules.allows)) false
        body.old body.new end result session.old.seen (SV.mark_of app.now ctx.old)
        session.new.seen (SV.mark_of app.now ctx.new) }
{
    call_request_body_filter(app, session, ctx, body, end)
}

/// Calls the modules' filter of request bodies with a piece, and then the application's with what
/// that left.
///
/// The error of one of them, which stands in its entry: behind that of the modules' the
/// application's is not called.
fn call_both<SV: ProxyHttp>(
    app: &SV,
    session: &mut Session<SV::Modules>,
    ctx: &mut SV::CTX,
    body: &mut Option<Bytes>,
    end: bool,
) -> Result<()>
    requires read { IsSome (head_of session.old.seen.downstream.reading) }
    requires made { IsSome session.old.modules }
    ensures { CallsFor (IsAllowed (SV.allows app.now) (SomeAllow SV.Modules.allows)) true
        body.old body.new end result session.old.seen (SV.mark_of app.now ctx.old)
        session.new.seen (SV.mark_of app.now ctx.new) }
{
    call_module_request_body(app, session, ctx, body, end)?;
    call_request_body_filter(app, session, ctx, body, end)
}

/// Calls the filters of request bodies with a piece, the modules' where they stand.
///
/// As `call_both`.
fn call_filters<SV: ProxyHttp>(
    app: &SV,
    session: &mut Session<SV::Modules>,
    ctx: &mut SV::CTX,
    body: &mut Option<Bytes>,
    end: bool,
) -> Result<()>
    requires { IsSome (head_of session.old.seen.downstream.reading) }
    ensures { CallsFor (IsAllowed (SV.allows app.now) (SomeAllow SV.Modules.allows))
        (is_some session.old.modules) body.old body.new end result session.old.seen
        (SV.mark_of app.now ctx.old) session.new.seen (SV.mark_of app.now ctx.new) }
{
    if session.modules.is_some() {
        call_both(app, session, ctx, body, end)
    } else {
        call_alone(app, session, ctx, body, end)
    }
}

/// Passes a piece through the filters of request bodies, the modules' where they stand and then the
/// application's, and answers what passes of it. `ended` says that the request has ended: then
/// nothing does.
///
/// The error of one of them, which stands in its entry.
pub(crate) fn filter_piece<SV: ProxyHttp>(
    app: &SV,
    session: &mut Session<SV::Modules>,
    ctx: &mut SV::CTX,
    ended: bool,
    piece: Piece,
) -> Result<Piece>
    requires { IsSome (head_of session.old.seen.downstream.reading) }
    ensures filters { Filters (IsAllowed (SV.allows app.now) (SomeAllow SV.Modules.allows))
        (is_some session.old.modules) ended piece result session.old.seen
        (SV.mark_of app.now ctx.old) session.new.seen (SV.mark_of app.now ctx.new) }
    ensures called { OnOk result (length (pieces_in session.old.seen.log)
        < length (pieces_in session.new.seen.log)) }
{
    let Piece {
        bytes: mut body,
        upstream_end,
        client_end,
    } = piece;
    let end = either(upstream_end, client_end);
    let given = body.is_some();
    match call_filters(app, session, ctx, &mut body, end) {
        Ok(()) => Ok(piece_of(ended, end, client_end, given, body)),
        Err(why) => Err(why),
    }
}

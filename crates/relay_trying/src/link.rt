//! The way of an attempt to its peer: who that is, the link to it, and the head that goes out.
ghost use Rattle.std.specs.Prelude.{IsSome, IsTrue};
ghost use Rattle.relay_session.specs.Reading.{head_of};
ghost use Rattle.relay_trying.specs.Trying.{FiltersHead, NamesPeer, TellsConnected, may_go_on};

use relay_hooks::{ProxyHttp, Session};
use relay_phases::{call_connected_to_upstream, call_upstream_peer, call_upstream_request_filter};
use relay_tasks::{Peer, RequestHeader, Result};

/// Asks for the peer of the attempt that is to begin.
///
/// The error of the hook, which is final; or out of memory, where no entry is new.
pub fn name_peer<SV: ProxyHttp>(
    app: &SV,
    session: &mut Session<SV::Modules>,
    ctx: &mut SV::CTX,
) -> Result<Peer>
    requires { IsSome (head_of session.old.seen.downstream.reading) }
    ensures names { NamesPeer (SV.allows app.now) session.old.seen (SV.mark_of app.now ctx.old)
        session.new.seen (SV.mark_of app.now ctx.new) result }
    ensures ready { IsTrue (may_go_on result session.new.seen) }
{
    call_upstream_peer(app, session, ctx)
}

/// Tells that the attempt has a link to its peer; `reused` says that it had been used before.
///
/// The error of the hook, behind which the attempt is broken; or out of memory, where no entry is
/// new.
pub fn tell_connected<SV: ProxyHttp>(
    app: &SV,
    session: &mut Session<SV::Modules>,
    ctx: &mut SV::CTX,
    peer: &Peer,
    reused: bool,
) -> Result<()>
    requires { IsSome (head_of session.old.seen.downstream.reading) }
    ensures tells { TellsConnected (SV.allows app.now) peer.now reused session.old.seen
        (SV.mark_of app.now ctx.old) session.new.seen (SV.mark_of app.now ctx.new) result }
    ensures ready { IsTrue (may_go_on result session.new.seen) }
{
    call_connected_to_upstream(app, session, ctx, peer, reused)
}

/// Calls the filter of the head that is sent to the peer, and answers the head as it left it.
///
/// The error of the filter, behind which the attempt is broken and the head is let go; or out of
/// memory, where no entry is new.
pub fn filter_head<SV: ProxyHttp>(
    app: &SV,
    session: &mut Session<SV::Modules>,
    ctx: &mut SV::CTX,
    head: RequestHeader,
) -> Result<RequestHeader>
    requires { IsSome (head_of session.old.seen.downstream.reading) }
    ensures filters { FiltersHead (SV.allows app.now) head session.old.seen
        (SV.mark_of app.now ctx.old) session.new.seen (SV.mark_of app.now ctx.new) result }
    ensures ready { IsTrue (may_go_on result session.new.seen) }
{
    let mut head = head;
    call_upstream_request_filter(app, session, ctx, &mut head)?;
    Ok(head)
}

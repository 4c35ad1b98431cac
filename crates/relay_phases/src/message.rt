//! The filters of messages of custom clients and upstreams.
//!
//! A call may be out of memory before it is made, and behind it: then the log is as before.
ghost use Rattle.std.specs.Prelude.{◌≡◌, Some, IsSome};
ghost use Rattle.relay_tasks.specs.declared.log.Item.TheVariants as item;
ghost use Rattle.relay_session.specs.Reading.{head_of};
ghost use Rattle.relay_hooks.specs.Call.{answered};
ghost use Rattle.relay_calls.specs.Calls.{Calls, Enters};

use crate::item::message_item;
use crate::settled::settle;
use bytes::Bytes;
use relay_calls::{begin, log_call};
use relay_hooks::{ProxyHttp, Session};
use relay_tasks::{Fail, Hook, Result};

/// Calls the filter of a message of a custom client: what goes on of it, or none. `final_hop` says
/// that the upstream is not custom.
///
/// The error of the filter, which stands in its entry.
pub fn call_downstream_custom_message_proxy_filter<SV: ProxyHttp>(
    app: &SV,
    session: &mut Session<SV::Modules>,
    ctx: &mut SV::CTX,
    message: Bytes,
    final_hop: bool,
) -> Result<Option<Bytes>>
    requires { IsSome (head_of session.old.seen.downstream.reading) }
    ensures calls { Enters (answered (λ left. item.Message left final_hop) result)
        (Calls (SV.allows app.now) Hook.DownstreamCustomMessageProxyFilter
        (item.Message (Some message) final_hop) session.old.seen (SV.mark_of app.now ctx.old)
        session.new.seen (SV.mark_of app.now ctx.new)) session.old.seen session.new.seen }
{
    let input = message_item(&message, final_hop)?;
    let hook = Hook::DownstreamCustomMessageProxyFilter;
    let begun = begin(&mut session.seen, hook, app.mark(ctx), input);
    let alloc = session.seen.alloc;
    let settled = settle(app.downstream_custom_message_proxy_filter(
        alloc, session, message, ctx, final_hop,
    ))?;
    let outcome = settled.passed(final_hop)?;
    log_call(&mut session.seen, begun, outcome, app.mark(ctx))?;
    settled.into_answer()
}

/// Calls the filter of a message of a custom upstream: what goes on of it, or none. `final_hop`
/// says that the client is not custom.
///
/// The error of the filter, which stands in its entry.
pub fn call_upstream_custom_message_proxy_filter<SV: ProxyHttp>(
    app: &SV,
    session: &mut Session<SV::Modules>,
    ctx: &mut SV::CTX,
    message: Bytes,
    final_hop: bool,
) -> Result<Option<Bytes>>
    requires { IsSome (head_of session.old.seen.downstream.reading) }
    ensures calls { Enters (answered (λ left. item.Message left final_hop) result)
        (Calls (SV.allows app.now) Hook.UpstreamCustomMessageProxyFilter
        (item.Message (Some message) final_hop) session.old.seen (SV.mark_of app.now ctx.old)
        session.new.seen (SV.mark_of app.now ctx.new)) session.old.seen session.new.seen }
{
    let input = message_item(&message, final_hop)?;
    let hook = Hook::UpstreamCustomMessageProxyFilter;
    let begun = begin(&mut session.seen, hook, app.mark(ctx), input);
    let alloc = session.seen.alloc;
    let settled = settle(app.upstream_custom_message_proxy_filter(
        alloc, session, message, ctx, final_hop,
    ))?;
    let outcome = settled.passed(final_hop)?;
    log_call(&mut session.seen, begun, outcome, app.mark(ctx))?;
    settled.into_answer()
}

//! The conditions on rules, which a script keeps or is refused.
ghost use Rattle.std.specs.Prelude.{◌≡◌};
ghost use Rattle.relay_tasks.specs.Hooks.{same_hook};
ghost use Rattle.relay_script.specs.Lawful.{verdict_of, fault_of, has_answer, count_on, is_crowded, frames, has_code, says_end, keeps_framing, is_final_code};
ghost use Rattle.relay_script.specs.Table.{may_stand, filters_head, filters_response, filters_body, may_fail, may_say};

use crate::rule::{Action, Rule};
use http_header::{CONTENT_LENGTH, HeaderName, TRANSFER_ENCODING};
use relay_tasks::Hook;

/// The condition that a rule breaks.
#[derive(Clone, Copy, Debug, PartialEq, Eq)]
pub enum RuleFault {
    /// The action may not stand on the hook.
    Misplaced,
    /// The code of an answer is outside 200 to 999, or that of a status is neither there nor 101.
    Code,
    /// The request's filter answers and says no, or the upstream's filter answers and says yes.
    Say,
    /// A rule on the answer to a purge names Content-Length or Transfer-Encoding.
    Framing,
    /// A hook with an answer has another rule.
    Crowded,
}

/// The first rule that breaks a condition, counted from 0, and the condition.
#[derive(Clone, Copy, Debug, PartialEq, Eq)]
pub struct RuleError {
    pub at: usize,
    pub fault: RuleFault,
}

/// Checks that each rule may stand where it stands.
pub fn check_rules(rules: &[Rule]) -> Result<(), RuleError>
    ensures { result ≡ verdict_of rules.now }
{
    for (at, rule) in rules.iter().enumerate() {
        if let Some(fault) = fault_of(rules, rule) {
            return Err(RuleError { at, fault });
        }
    }
    Ok(())
}

fn fault_of(all: &[Rule], rule: &Rule) -> Option<RuleFault>
    ensures { result ≡ fault_of all.now rule.now }
{
    if !may_stand(rule.hook, &rule.action) {
        return Some(RuleFault::Misplaced);
    }
    if !has_code(&rule.action) {
        return Some(RuleFault::Code);
    }
    if !says_end(rule.hook, &rule.action) {
        return Some(RuleFault::Say);
    }
    if !keeps_framing(rule.hook, &rule.action) {
        return Some(RuleFault::Framing);
    }
    if is_crowded(rule.hook, all) {
        return Some(RuleFault::Crowded);
    }
    None
}

/// Whether the action may stand on the hook.
pub fn may_stand(hook: Hook, action: &Action) -> bool
    ensures { result ≡ may_stand hook action.now }
{
    match action {
        Action::Set { .. } | Action::Remove { .. } => filters_head(hook),
        Action::Status(_) => filters_response(hook),
        Action::Drop | Action::Text(_) => filters_body(hook),
        Action::Answer { .. } => matches!(hook, Hook::RequestFilter | Hook::ProxyUpstreamFilter),
        Action::Error(_) => may_fail(hook),
        Action::Retry(_) => matches!(hook, Hook::ErrorWhileProxy | Hook::FailToConnect),
        Action::Say(_) => may_say(hook),
        Action::Keep(_) => hook == Hook::PersistConnectionContext,
        Action::Inject { .. } => hook == Hook::CustomForwarding,
    }
}

fn filters_head(hook: Hook) -> bool
    ensures { result ≡ filters_head hook }
{
    match hook {
        Hook::UpstreamRequestFilter | Hook::ModuleRequestHeader | Hook::ModuleResponseHeader =>
            true,
        other => filters_response(other),
    }
}

fn filters_response(hook: Hook) -> bool
    ensures { result ≡ filters_response hook }
{
    matches!(
        hook,
        Hook::UpstreamResponseFilter | Hook::ResponseFilter | Hook::PurgeResponseFilter
    )
}

fn filters_body(hook: Hook) -> bool
    ensures { result ≡ filters_body hook }
{
    matches!(
        hook,
        Hook::RequestBodyFilter | Hook::UpstreamResponseBodyFilter | Hook::ResponseBodyFilter
    )
}

fn may_fail(hook: Hook) -> bool
    ensures { result ≡ may_fail hook }
{
    match hook {
        Hook::NewCtx
        | Hook::AllowSpawningSubrequest
        | Hook::Logging
        | Hook::PersistConnectionContext
        | Hook::OnConnectionReuse
        | Hook::SuppressErrorLog
        | Hook::SuppressProxyWarnLog
        | Hook::ErrorWhileProxy
        | Hook::FailToConnect
        | Hook::FailToProxy
        | Hook::RequestSummary
        | Hook::IsPurge
        | Hook::PurgeAction => false,
        _ => true,
    }
}

fn may_say(hook: Hook) -> bool
    ensures { result ≡ may_say hook }
{
    matches!(
        hook,
        Hook::AllowSpawningSubrequest
            | Hook::ProxyUpstreamFilter
            | Hook::SuppressErrorLog
            | Hook::SuppressProxyWarnLog
            | Hook::IsPurge
    )
}

fn is_final_code(code: u16) -> bool
    ensures { result ≡ is_final_code code }
{
    code >= 200 && code < 1000
}

fn has_code(action: &Action) -> bool
    ensures { result ≡ has_code action.now }
{
    match action {
        Action::Status(code) => *code == 101 || is_final_code(*code),
        Action::Answer { code, .. } => is_final_code(*code),
        _ => true,
    }
}

fn says_end(hook: Hook, action: &Action) -> bool
    ensures { result ≡ says_end hook action.now }
{
    match (hook, action) {
        (Hook::RequestFilter, Action::Answer { say, .. }) => *say,
        (Hook::ProxyUpstreamFilter, Action::Answer { say, .. }) => !*say,
        _ => true,
    }
}

fn keeps_framing(hook: Hook, action: &Action) -> bool
    ensures { result ≡ keeps_framing hook action.now }
{
    match (hook, action) {
        (Hook::PurgeResponseFilter, Action::Set { name, .. } | Action::Remove { name }) => {
            !frames(name)
        }
        _ => true,
    }
}

fn frames(name: &HeaderName) -> bool
    ensures { result ≡ frames name.now }
{
    *name == CONTENT_LENGTH || *name == TRANSFER_ENCODING
}

fn is_crowded(hook: Hook, rules: &[Rule]) -> bool
    ensures { result ≡ is_crowded hook rules.now }
{
    has_answer(hook, rules) && count_on(hook, rules) > 1
}

fn has_answer(hook: Hook, rules: &[Rule]) -> bool
    ensures { result ≡ has_answer hook rules.now }
{
    rules.iter().any(|rule| rule.is_on(hook) && matches!(rule.action, Action::Answer { .. }))
}

fn count_on(hook: Hook, rules: &[Rule]) -> usize
    ensures { result ≡ count_on hook rules.now }
{
    rules.iter().filter(|rule| rule.is_on(hook)).count()
}

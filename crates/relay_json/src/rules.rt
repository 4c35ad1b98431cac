//! Rules: what a script says of the hooks of its requests. A reader for each action; the rules are
//! taken together, where they keep all conditions of relay_script and their hooks are called.
ghost use Rattle.std.specs.Prelude.{◌≡◌, true, false, IsErrOf};
ghost use Rattle.serde_json.specs.View.{view, items_view};
ghost use Rattle.relay_script.specs.Lawful.{are_lawful};
ghost use Rattle.relay_json.specs.Rules.{field_name, field_name_of, field_value, field_value_of, code_of, type_of, messages_of, set_of, remove_of, status_of, text_rule_of, answer_of, error_of, retry_rule_of, say_of, keep_of, inject_of, action_of, keys_of, hook_of, rule_of, listed_of, is_called, are_called, taken, rules_of};
ghost use Rattle.relay_json.specs.Values.{Reads, each_of, text_of};

use crate::names::{hook_named, type_named};
use crate::script::ScriptError;
use crate::values::{count, flag, key_count, required, retry, text, word};
use http_header::{HeaderName, HeaderNameError, HeaderValue, HeaderValueError};
use relay_script::{Action, CheckedRules, Rule};
use relay_tasks::{ErrorType, Hook, MessageList};
use serde_json::Value;
use std::alloc::Global;

/// The rules of a script, and none where it has no such key.
pub(crate) fn rules(alloc: Global, value: &Value) -> Result<CheckedRules, ScriptError>
    ensures { Reads (λ rules. rules) result (rules_of (view value.now)) }
{
    let rules = match value.get("hooks") {
        Some(list) => listed(alloc, list)?,
        None => Vec::new(alloc),
    };
    taken(rules)
}

/// The rules where they are taken. `Refused` says that they break a condition, `HookNotCalled`
/// that they break none.
fn taken(rules: Vec<Rule>) -> Result<CheckedRules, ScriptError>
    ensures reads { Reads (λ checked. checked) result (taken rules.items) }
    ensures unlawful { IsErrOf result ScriptError.Refused → are_lawful rules.items ≡ false }
    ensures lawful { IsErrOf result ScriptError.HookNotCalled → are_lawful rules.items ≡ true }
{
    let Ok(checked) = CheckedRules::new(rules) else {
        return Err(ScriptError::Refused);
    };
    if !are_called(checked.as_slice()) {
        return Err(ScriptError::HookNotCalled);
    }
    Ok(checked)
}

/// Whether the hooks of all rules are called.
fn are_called(rules: &[Rule]) -> bool
    ensures { result ≡ are_called rules.now }
{
    rules.iter().all(|rule| is_called(rule.hook))
}

/// Whether the proxy calls the hook: those in front of the attempts and of a purge, those of an
/// attempt up to the head that is sent, those that look at the error of an attempt, and those of the
/// end. A rule on another hook is taken once that is called, so that no script is taken that is not
/// followed.
fn is_called(hook: Hook) -> bool
    ensures { result ≡ is_called hook }
{
    matches!(
        hook,
        Hook::EarlyRequestFilter
            | Hook::AllowSpawningSubrequest
            | Hook::InitDownstreamModules
            | Hook::ModuleRequestHeader
            | Hook::RequestFilter
            | Hook::IsPurge
            | Hook::PurgeResponseFilter
            | Hook::ProxyUpstreamFilter
            | Hook::UpstreamPeer
            | Hook::FailToConnect
            | Hook::ConnectedToUpstream
            | Hook::UpstreamRequestFilter
            | Hook::ModuleRequestBody
            | Hook::RequestBodyFilter
            | Hook::UpstreamResponseFilter
            | Hook::ResponseFilter
            | Hook::ModuleResponseHeader
            | Hook::UpstreamResponseBodyFilter
            | Hook::ResponseBodyFilter
            | Hook::ModuleResponseBody
            | Hook::UpstreamResponseTrailerFilter
            | Hook::ModuleResponseTrailer
            | Hook::ModuleResponseDone
            | Hook::ErrorWhileProxy
            | Hook::SuppressProxyWarnLog
            | Hook::SuppressErrorLog
            | Hook::PersistConnectionContext
    )
}

/// The rules of a list, whatever they say together.
pub fn listed(alloc: Global, value: &Value) -> Result<Vec<Rule>, ScriptError>
    ensures { Reads (λ rules. rules.items) result (listed_of (view value.now)) }
{
    match value.as_array() {
        Some(values) => each_rule(alloc, values),
        None => Err(ScriptError::Refused),
    }
}

/// The rules that values are, in order.
fn each_rule(alloc: Global, values: &[Value]) -> Result<Vec<Rule>, ScriptError>
    ensures { Reads (λ rules. rules.items) result (each_of rule_of (items_view values.now)) }
{
    let mut rules = Vec::new(alloc);
    for value in values {
        let rule = rule(alloc, value)?;
        rules.push(rule)?;
    }
    Ok(rules)
}

/// The rule that a value is.
fn rule(alloc: Global, value: &Value) -> Result<Rule, ScriptError>
    ensures { Reads (λ rule. rule) result (rule_of (view value.now)) }
{
    let hook = hook(required(value, "hook")?)?;
    let action = action(alloc, value)?;
    if key_count(value) != 2 + keys_of(&action) {
        return Err(ScriptError::Refused);
    }
    Ok(Rule { hook, action })
}

/// How many keys a rule has for its action, `do` aside.
fn keys_of(action: &Action) -> usize
    ensures { result ≡ keys_of action.now }
{
    match action {
        Action::Drop => 0,
        Action::Remove { .. }
        | Action::Status(_)
        | Action::Text(_)
        | Action::Error(_)
        | Action::Retry(_)
        | Action::Say(_)
        | Action::Keep(_) => 1,
        Action::Set { .. } | Action::Answer { .. } | Action::Inject { .. } => 2,
    }
}

/// The hook that a value names.
fn hook(value: &Value) -> Result<Hook, ScriptError>
    ensures { Reads (λ hook. hook) result (hook_of (view value.now)) }
{
    match hook_named(word(value)?.as_bytes()) {
        Some(hook) => Ok(hook),
        None => Err(ScriptError::Refused),
    }
}

/// The action of a rule.
fn action(alloc: Global, value: &Value) -> Result<Action, ScriptError>
    ensures { Reads (λ action. action) result (action_of (view value.now)) }
{
    match required(value, "do")?.as_str() {
        Some("set") => set(alloc, value),
        Some("remove") => remove(alloc, value),
        Some("status") => status(value),
        Some("drop") => Ok(Action::Drop),
        Some("text") => text_rule(alloc, value),
        Some("answer") => answer(value),
        Some("error") => error(value),
        Some("retry") => retry_rule(value),
        Some("say") => say(value),
        Some("keep") => keep(value),
        Some("inject") => inject(alloc, value),
        Some(_) | None => Err(ScriptError::Refused),
    }
}

/// Puts a value in the place of all those of a field.
fn set(alloc: Global, rule: &Value) -> Result<Action, ScriptError>
    ensures { Reads (λ action. action) result (set_of (view rule.now)) }
{
    let name = field_name(alloc, required(rule, "name")?)?;
    let value = field_value(alloc, required(rule, "value")?)?;
    Ok(Action::Set { name, value })
}

/// Removes all values of a field.
fn remove(alloc: Global, rule: &Value) -> Result<Action, ScriptError>
    ensures { Reads (λ action. action) result (remove_of (view rule.now)) }
{
    let name = field_name(alloc, required(rule, "name")?)?;
    Ok(Action::Remove { name })
}

/// Sets the status of a response.
fn status(rule: &Value) -> Result<Action, ScriptError>
    ensures { Reads (λ action. action) result (status_of (view rule.now)) }
{
    let code = code(required(rule, "code")?)?;
    Ok(Action::Status(code))
}

/// Puts a text in the place of a piece.
fn text_rule(alloc: Global, rule: &Value) -> Result<Action, ScriptError>
    ensures { Reads (λ action. action) result (text_rule_of (view rule.now)) }
{
    let value = text(alloc, required(rule, "value")?)?;
    Ok(Action::Text(value))
}

/// Answers the client, and says that or not.
fn answer(rule: &Value) -> Result<Action, ScriptError>
    ensures { Reads (λ action. action) result (answer_of (view rule.now)) }
{
    let code = code(required(rule, "code")?)?;
    let say = flag(required(rule, "say")?)?;
    Ok(Action::Answer { code, say })
}

/// Fails.
fn error(rule: &Value) -> Result<Action, ScriptError>
    ensures { Reads (λ action. action) result (error_of (view rule.now)) }
{
    let etype = error_type(required(rule, "type")?)?;
    Ok(Action::Error(etype))
}

/// Sets the mark of an error.
fn retry_rule(rule: &Value) -> Result<Action, ScriptError>
    ensures { Reads (λ action. action) result (retry_rule_of (view rule.now)) }
{
    let mark = retry(required(rule, "on")?)?;
    Ok(Action::Retry(mark))
}

/// Says yes or no.
fn say(rule: &Value) -> Result<Action, ScriptError>
    ensures { Reads (λ action. action) result (say_of (view rule.now)) }
{
    let on = flag(required(rule, "on")?)?;
    Ok(Action::Say(on))
}

/// Keeps a value for the next request.
fn keep(rule: &Value) -> Result<Action, ScriptError>
    ensures { Reads (λ action. action) result (keep_of (view rule.now)) }
{
    let value = count(required(rule, "value")?)?;
    Ok(Action::Keep(u64::from(value)))
}

/// Puts messages in front of a forwarding.
fn inject(alloc: Global, rule: &Value) -> Result<Action, ScriptError>
    ensures { Reads (λ action. action) result (inject_of (view rule.now)) }
{
    let up = messages(alloc, required(rule, "up")?)?;
    let down = messages(alloc, required(rule, "down")?)?;
    Ok(Action::Inject { up, down })
}

/// The name of a field that a value is.
fn field_name(alloc: Global, value: &Value) -> Result<HeaderName, ScriptError>
    ensures { Reads (λ name. name) result (field_name_of (view value.now)) }
{
    name_in(alloc, word(value)?.as_bytes())
}

/// The name of a field that bytes are.
fn name_in(alloc: Global, bytes: &[u8]) -> Result<HeaderName, ScriptError>
    ensures { Reads (λ name. name) result (field_name bytes.now) }
{
    match HeaderName::from_bytes(alloc, bytes) {
        Ok(name) => Ok(name),
        Err(HeaderNameError::Invalid) => Err(ScriptError::Refused),
        Err(HeaderNameError::OutOfMemory) => Err(ScriptError::OutOfMemory),
    }
}

/// The value of a field that a value is.
fn field_value(alloc: Global, value: &Value) -> Result<HeaderValue, ScriptError>
    ensures { Reads (λ value. value) result (field_value_of (view value.now)) }
{
    value_in(alloc, word(value)?.as_bytes())
}

/// The value of a field that bytes are.
fn value_in(alloc: Global, bytes: &[u8]) -> Result<HeaderValue, ScriptError>
    ensures { Reads (λ value. value) result (field_value bytes.now) }
{
    match HeaderValue::from_bytes(alloc, bytes) {
        Ok(value) => Ok(value),
        Err(HeaderValueError::Invalid) => Err(ScriptError::Refused),
        Err(HeaderValueError::OutOfMemory) => Err(ScriptError::OutOfMemory),
    }
}

/// The status that a value is.
fn code(value: &Value) -> Result<u16, ScriptError>
    ensures { Reads (λ code. code) result (code_of (view value.now)) }
{
    let code = count(value)?;
    if code > u32::from(u16::MAX) {
        return Err(ScriptError::Refused);
    }
    Ok(code as u16)
}

/// The type of an error that a value names.
fn error_type(value: &Value) -> Result<ErrorType, ScriptError>
    ensures { Reads (λ etype. etype) result (type_of (view value.now)) }
{
    match type_named(word(value)?.as_bytes()) {
        Some(etype) => Ok(etype),
        None => Err(ScriptError::Refused),
    }
}

/// The messages of a list.
fn messages(alloc: Global, value: &Value) -> Result<MessageList, ScriptError>
    ensures { Reads (λ messages. messages) result (messages_of (view value.now)) }
{
    match value.as_array() {
        Some(values) => each_message(alloc, values),
        None => Err(ScriptError::Refused),
    }
}

/// The messages that values are, in order.
fn each_message(alloc: Global, values: &[Value]) -> Result<MessageList, ScriptError>
    ensures { Reads (λ messages. messages) result (each_of text_of (items_view values.now)) }
{
    let mut messages = MessageList::new(alloc);
    for value in values {
        let message = text(alloc, value)?;
        match messages.push(message) {
            Ok(()) => {}
            Err(_) => return Err(ScriptError::OutOfMemory),
        }
    }
    Ok(messages)
}

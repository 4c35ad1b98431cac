//! Names: what hooks and types of errors are called, in scripts and in reports.
ghost use Rattle.std.specs.Prelude.{◌≡◌, ◌++◌, find, codes, MatchOption};
ghost use Rattle.std.specs.Str.{bytes_eq};
ghost use Rattle.relay_tasks.specs.declared.error.ErrorType.{ErrorType};
ghost use Rattle.relay_tasks.specs.declared.hook.Hook.{Hook};
ghost use Rattle.relay_json.specs.Names.{hook_name, hook_named, IsNamedAlone, type_name, type_number, plain_type, number_behind, type_named, IsTypedAlone};

use crate::number::parse_number;
use relay_tasks::{ErrorType, Hook};

/// Every hook and every call of a module.
const HOOKS: [Hook; 37] = [
    Hook::NewCtx,
    Hook::UpstreamPeer,
    Hook::InitDownstreamModules,
    Hook::EarlyRequestFilter,
    Hook::AllowSpawningSubrequest,
    Hook::RequestFilter,
    Hook::RequestBodyFilter,
    Hook::ProxyUpstreamFilter,
    Hook::UpstreamRequestFilter,
    Hook::UpstreamResponseFilter,
    Hook::ResponseFilter,
    Hook::CustomForwarding,
    Hook::DownstreamCustomMessageProxyFilter,
    Hook::UpstreamCustomMessageProxyFilter,
    Hook::UpstreamResponseBodyFilter,
    Hook::UpstreamResponseTrailerFilter,
    Hook::ResponseBodyFilter,
    Hook::ResponseTrailerFilter,
    Hook::Logging,
    Hook::PersistConnectionContext,
    Hook::OnConnectionReuse,
    Hook::SuppressErrorLog,
    Hook::SuppressProxyWarnLog,
    Hook::ErrorWhileProxy,
    Hook::FailToConnect,
    Hook::FailToProxy,
    Hook::ConnectedToUpstream,
    Hook::RequestSummary,
    Hook::IsPurge,
    Hook::PurgeAction,
    Hook::PurgeResponseFilter,
    Hook::ModuleRequestHeader,
    Hook::ModuleRequestBody,
    Hook::ModuleResponseHeader,
    Hook::ModuleResponseBody,
    Hook::ModuleResponseTrailer,
    Hook::ModuleResponseDone,
];

/// Every type of an error that has no number.
const PLAIN_TYPES: [ErrorType; 13] = [
    ErrorType::InvalidHTTPHeader,
    ErrorType::ReadError,
    ErrorType::ReadTimedout,
    ErrorType::WriteError,
    ErrorType::WriteTimedout,
    ErrorType::ConnectionClosed,
    ErrorType::ConnectError,
    ErrorType::PrematureBodyEnd,
    ErrorType::H2Error,
    ErrorType::H2Downgrade,
    ErrorType::InvalidH2,
    ErrorType::InternalError,
    ErrorType::FileReadError,
];

/// What a hook is called.
pub fn hook_name(hook: Hook) -> &'static [u8]
    ensures { result.now ≡ hook_name hook }
{
    match hook {
        Hook::NewCtx => b"new_ctx",
        Hook::UpstreamPeer => b"upstream_peer",
        Hook::InitDownstreamModules => b"init_downstream_modules",
        Hook::EarlyRequestFilter => b"early_request_filter",
        Hook::AllowSpawningSubrequest => b"allow_spawning_subrequest",
        Hook::RequestFilter => b"request_filter",
        Hook::RequestBodyFilter => b"request_body_filter",
        Hook::ProxyUpstreamFilter => b"proxy_upstream_filter",
        Hook::UpstreamRequestFilter => b"upstream_request_filter",
        Hook::UpstreamResponseFilter => b"upstream_response_filter",
        Hook::ResponseFilter => b"response_filter",
        Hook::CustomForwarding => b"custom_forwarding",
        Hook::DownstreamCustomMessageProxyFilter => b"downstream_custom_message_proxy_filter",
        Hook::UpstreamCustomMessageProxyFilter => b"upstream_custom_message_proxy_filter",
        Hook::UpstreamResponseBodyFilter => b"upstream_response_body_filter",
        Hook::UpstreamResponseTrailerFilter => b"upstream_response_trailer_filter",
        Hook::ResponseBodyFilter => b"response_body_filter",
        Hook::ResponseTrailerFilter => b"response_trailer_filter",
        Hook::Logging => b"logging",
        Hook::PersistConnectionContext => b"persist_connection_context",
        Hook::OnConnectionReuse => b"on_connection_reuse",
        Hook::SuppressErrorLog => b"suppress_error_log",
        Hook::SuppressProxyWarnLog => b"suppress_proxy_warn_log",
        Hook::ErrorWhileProxy => b"error_while_proxy",
        Hook::FailToConnect => b"fail_to_connect",
        Hook::FailToProxy => b"fail_to_proxy",
        Hook::ConnectedToUpstream => b"connected_to_upstream",
        Hook::RequestSummary => b"request_summary",
        Hook::IsPurge => b"is_purge",
        Hook::PurgeAction => b"purge_action",
        Hook::PurgeResponseFilter => b"purge_response_filter",
        Hook::ModuleRequestHeader => b"module_request_header",
        Hook::ModuleRequestBody => b"module_request_body",
        Hook::ModuleResponseHeader => b"module_response_header",
        Hook::ModuleResponseBody => b"module_response_body",
        Hook::ModuleResponseTrailer => b"module_response_trailer",
        Hook::ModuleResponseDone => b"module_response_done",
    }
}

/// The hook of that name.
pub fn hook_named(name: &[u8]) -> Option<Hook>
    ensures { result ≡ hook_named name.now }
{
    HOOKS.iter().copied().find(|hook| hook_name(*hook) == name)
}

/// Each hook is found by its name.
#[tactic(auto, using(crate::proofs::NameLemmas::named_alone))]
pub fn named_alone()
    ensures { (hook : Hook) → IsNamedAlone hook }
{}

/// What a type of an error is called, without its number.
pub fn type_name(etype: ErrorType) -> &'static [u8]
    ensures { result.now ≡ type_name etype }
{
    match etype {
        ErrorType::InvalidHTTPHeader => b"InvalidHTTPHeader",
        ErrorType::ReadError => b"ReadError",
        ErrorType::ReadTimedout => b"ReadTimedout",
        ErrorType::WriteError => b"WriteError",
        ErrorType::WriteTimedout => b"WriteTimedout",
        ErrorType::ConnectionClosed => b"ConnectionClosed",
        ErrorType::ConnectError => b"ConnectError",
        ErrorType::PrematureBodyEnd => b"PrematureBodyEnd",
        ErrorType::H2Error => b"H2Error",
        ErrorType::H2Downgrade => b"H2Downgrade",
        ErrorType::InvalidH2 => b"InvalidH2",
        ErrorType::InternalError => b"InternalError",
        ErrorType::FileReadError => b"FileReadError",
        ErrorType::HTTPStatus(_) => b"HTTPStatus",
        ErrorType::Custom(_) => b"Custom",
    }
}

/// The number of a type that has one.
pub fn type_number(etype: ErrorType) -> Option<u16>
    ensures { result ≡ type_number etype }
{
    match etype {
        ErrorType::HTTPStatus(code) | ErrorType::Custom(code) => Some(code),
        ErrorType::InvalidHTTPHeader
        | ErrorType::ReadError
        | ErrorType::ReadTimedout
        | ErrorType::WriteError
        | ErrorType::WriteTimedout
        | ErrorType::ConnectionClosed
        | ErrorType::ConnectError
        | ErrorType::PrematureBodyEnd
        | ErrorType::H2Error
        | ErrorType::H2Downgrade
        | ErrorType::InvalidH2
        | ErrorType::InternalError
        | ErrorType::FileReadError => None,
    }
}

/// The type of an error that a text writes, with its number where it has one.
pub fn type_named(text: &[u8]) -> Option<ErrorType>
    ensures { result ≡ type_named text.now }
{
    if let Some(plain) = plain_type(text) {
        return Some(plain);
    }
    if let Some(code) = number_behind(b"HTTPStatus(", text) {
        return Some(ErrorType::HTTPStatus(code));
    }
    match number_behind(b"Custom(", text) {
        Some(code) => Some(ErrorType::Custom(code)),
        None => None,
    }
}

/// Each type of an error is read from what a report writes of it.
#[tactic(auto, using(crate::proofs::NameLemmas::typed_alone))]
pub fn typed_alone()
    ensures { (etype : ErrorType) → IsTypedAlone etype }
{}

/// The type of that name that has no number.
fn plain_type(name: &[u8]) -> Option<ErrorType>
    ensures { result ≡ plain_type name.now }
{
    PLAIN_TYPES
        .iter()
        .copied()
        .find(|etype| type_name(*etype) == name)
}

/// The number between that front and a closing bracket.
fn number_behind(front: &[u8], text: &[u8]) -> Option<u16>
    ensures { result ≡ number_behind front.now text.now }
{
    let number = text.strip_prefix(front)?.strip_suffix(b")")?;
    parse_number(number)
}

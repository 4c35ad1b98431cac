//! The fixed texts that say what an error was about.

/// What an error was about. Each has one fixed text, in lower case.
#[derive(Clone, Copy, Debug, PartialEq, Eq)]
pub enum Context {
    None,
    HeadGrammar,
    HeadTooLong,
    BadFraming,
    HostCount,
    HostInvalid,
    HostMismatch,
    Userinfo,
    UserinfoHost,
    Ambiguous,
    NonUtf8Reconcile,
    NonUtf8H2,
    NoAuthorityH2,
    PathInvalid,
    Mismatch101,
    AfterUpgrade,
    BeforeUpgrade,
    EndedInformational,
    LengthOnEnd,
    UpgradedH2,
    NoReader,
    NoWriter,
    ClientClosed,
    ClientSentMore,
    UpstreamClosed,
    BodyShort,
    NoTaskApi,
    LinkFault,
}

impl Context {
    ghost use Rattle.std.specs.Prelude.{◌≡◌};
    ghost use Rattle.relay_tasks.specs.Context.{context_text};

    /// The text, empty for `None`.
    pub fn text(&self) -> &'static str
        ensures { result.now ≡ context_text self.now }
    {
        match self {
            Context::None => "",
            Context::HeadGrammar => "malformed message head",
            Context::HeadTooLong => "message head too long",
            Context::BadFraming => "malformed message framing",
            Context::HostCount => "missing or repeated Host",
            Context::HostInvalid => "invalid authority in Host",
            Context::HostMismatch => "Host and target disagree",
            Context::Userinfo => "userinfo in request authority",
            Context::UserinfoHost => "userinfo in Host header",
            Context::Ambiguous => "ambiguous HTTP absolute-form request target",
            Context::NonUtf8Reconcile => "non-UTF-8 path cannot be reconciled with URI authority",
            Context::NonUtf8H2 => "non-UTF-8 request target cannot be forwarded over HTTP/2",
            Context::NoAuthorityH2 => "no authority for H2 upstream request",
            Context::PathInvalid => "invalid path for HTTP/2",
            Context::Mismatch101 => "received 101 response with mismatched upgrade status",
            Context::AfterUpgrade => "received task after downstream 101 upgrade",
            Context::BeforeUpgrade => "received upgraded body task before downstream 101 upgrade",
            Context::EndedInformational => "informational head ended its stream",
            Context::LengthOnEnd => "non-zero content-length on EOS headers frame",
            Context::UpgradedH2 => "upgraded while proxying to h2 session",
            Context::NoReader => "no custom message reader",
            Context::NoWriter => "no custom message writer",
            Context::ClientClosed => "client closed",
            Context::ClientSentMore => "client sent data after its request",
            Context::UpstreamClosed => "upstream closed inside its response",
            Context::BodyShort => "body shorter than its Content-Length",
            Context::NoTaskApi => "session without the proxy task API",
            Context::LinkFault => "fault reported by a link",
        }
    }
}

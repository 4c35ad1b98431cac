//! What is asked of a head behind the entry check (RFC 9110, sections 7.8 and 9.3.6).
ghost use Rattle.std.specs.Prelude.{◌↔◌, IsTrue};
ghost use Rattle.relay_request.specs.Relayable.{IsConnect, NamesUpgrade};

use relay_tasks::RequestHeader;

/// Whether a request asks for a tunnel.
pub(crate) fn is_connect(head: &RequestHeader) -> bool
    ensures { IsTrue result ↔ IsConnect head.now }
{
    head.method().as_str() == "CONNECT"
}

/// Whether a request asks to leave HTTP.
pub(crate) fn names_upgrade(head: &RequestHeader) -> bool
    ensures { IsTrue result ↔ NamesUpgrade head.now }
{
    head.headers().contains_key("upgrade")
}

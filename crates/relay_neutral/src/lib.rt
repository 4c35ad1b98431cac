//! A valid exchange is relayed whole where no call of a hook changes it: a law of whole requests
//! alone, which no turn proves (RFC 9110, section 3.7).
#![tactic(auto)]

ghost use Rattle.relay_neutral.specs.Neutral.{DefaultsAreNeutral, NeutralIsWhole};

use relay_links::ByteLink;

/// A request whose calls changed nothing is served without an error, or unfinished for want of
/// turns or memory, where the client gives a whole request and then is still, the peer gives a
/// whole response that is relayed, and no call of a link failed, nor of the connector.
pub fn neutral_is_whole<L: ByteLink>()
    ensures { NeutralIsWhole L.state L.start }
{}

/// Each call of a hook of `Defaults` is one that changes nothing.
pub fn defaults_are_neutral()
    ensures { DefaultsAreNeutral }
{}

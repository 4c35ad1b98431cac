//! What a valid exchange is, and that none fails: laws of exchanges alone, which no turn proves.
#![tactic(auto)]

ghost use Rattle.relay_valid.specs.Laws.{RelayedIsFit, ValidNeverFails, ValidNeverRefused};

/// No exchange fails with an error whose client gives a whole request and then is still, whose peer
/// gives a whole response that is relayed, and in which no call of a link failed.
pub fn valid_never_fails()
    ensures { ValidNeverFails }
{}

/// No response is relayed whole that is broken, cut off by the end of its link, or switches
/// protocols.
pub fn relayed_is_fit()
    ensures { RelayedIsFit }
{}

/// No head of a valid request is refused, however much of the request has come.
pub fn valid_never_refused()
    ensures { ValidNeverRefused }
{}

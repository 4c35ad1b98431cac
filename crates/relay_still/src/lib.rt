//! Exchanges behind filters that change nothing keep what is said of those without: laws of
//! exchanges alone, which no turn proves.
#![tactic(auto)]

ghost use Rattle.relay_still.specs.Laws.{EarlyIsFit, NeverShort, RelayedIsFit, ValidNeverFails};

/// No response is relayed whole behind filters that change nothing that is broken, cut off by the
/// end of its link, or switches protocols.
pub fn relayed_is_fit()
    ensures { RelayedIsFit }
{}

/// Behind filters that change nothing the client's writer refuses nothing of a valid exchange, and
/// no end of it as short.
pub fn never_short()
    ensures { NeverShort }
{}

/// No valid exchange fails with an error whose filters changed nothing.
pub fn valid_never_fails()
    ensures { ValidNeverFails }
{}

/// No response that ended early behind filters that change nothing is broken, cut off by the end of
/// its link, or switches protocols.
pub fn early_is_fit()
    ensures { EarlyIsFit }
{}

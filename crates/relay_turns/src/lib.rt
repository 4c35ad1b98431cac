//! What each turn of a request keeps of all that is promised: lemmas alone, which the machine of
//! relay_proxy cites for its functions. No function stands here, and no definition.
#![tactic(auto)]

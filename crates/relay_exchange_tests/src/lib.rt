//! Tests of the session of a client, of the duplex and its sides, of the client of a peer, and of
//! one exchange. They stand here so that each of those crates is proved but once.
#![tactic(auto)]

#[cfg(test)]
mod tests;

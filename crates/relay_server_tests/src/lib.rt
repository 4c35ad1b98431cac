//! Tests of the server, over links and a poller in memory. They stand here so that the server is
//! proved but once.
#![tactic(auto)]

#[cfg(test)]
mod tests;

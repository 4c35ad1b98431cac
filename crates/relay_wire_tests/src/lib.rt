//! Tests of plain data, of the rules of scripts, of the authority, of the links, of the connector, of
//! the sockets and of HTTP/1 on a link. They stand here so that each of those crates is proved but
//! once.
#![tactic(auto)]

#[cfg(test)]
mod tests;

//! One exchange over HTTP/1 links: a request whose head was read from a client, and its response
//! over one link to a peer, in terms of the bytes that passed.
#![tactic(auto)]

mod h1_exchange;

pub use h1_exchange::{H1Exchange, Unbegun};

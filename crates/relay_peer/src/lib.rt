//! The client of a peer on an HTTP/1 link: a request is queued and written, and the response is
//! read as tasks (RFC 9112, sections 2 to 9). And the upstream's side of a duplex over it.
#![tactic(auto)]

mod h1_client;
mod peer_side;
mod request_writing;
mod response_reading;

pub use h1_client::H1Client;
pub use peer_side::PeerSide;

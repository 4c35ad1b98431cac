//! The outside over sockets: a link over a TCP connection that does not block, a connector that
//! opens one to a fixed address, a poller that listens and waits, and what a poll has told of their
//! sockets. They tell no content.
#![tactic(auto)]

mod answer;
mod idle;
mod lingering;
mod readiness;
mod tcp_connector;
mod tcp_link;
mod tcp_poller;

pub use readiness::{Origin, Readiness, Seat, watch};
pub use tcp_connector::{TcpConnector, TcpUpstream};
pub use tcp_link::TcpLink;
pub use tcp_poller::TcpPoller;

//! The client's side of a duplex behind the filters of an application: each piece of the request
//! and each task of the response passes its filters, and each call of one stands in the log.
#![tactic(auto)]

mod hooked;
mod lent;
mod request;
mod response;
mod rested;

pub use hooked::Hooked;
pub use rested::Rested;

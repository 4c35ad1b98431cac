//! What the duplex core does with ample memory.

mod client;
mod duplex;
mod states;
mod support;
mod upstream;

//! Outside texts and numbers, and each public call once with ample memory.

mod body_reader;
mod body_writer;
mod client_head;
mod connection;
mod framing;
mod head;
mod options;
mod wire;

//! HTTP/1 on a link: heads, framing, bodies and wire form (RFC 9112, sections 2 to 7).
#![tactic(auto)]

mod ahead;
mod body_reader;
mod body_writer;
mod client_head;
mod connection;
mod framing;
mod head;
mod options;
mod output;
mod size_line;
mod verdict;
mod wire;

pub use ahead::{Ahead, READ_SIZE};
pub use body_reader::{BodyReader, Cut, MAX_LINE, MAX_TRAILER};
pub use body_writer::BodyWriter;
pub use client_head::{add_chunked, client_framing, frame_for_client, is_sent_to, lacks_framing};
pub use connection::Connection;
pub use framing::{Framing, request_framing, response_framing};
pub use head::{HeadReader, MAX_FIELDS, MAX_HEAD};
pub use options::closes;
pub use output::Output;
pub use verdict::{RequestRead, ResponseRead, judge_request, judge_response};
pub use wire::{write_generated, write_request_head, write_response_head};

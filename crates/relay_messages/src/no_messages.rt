//! A link of messages that nobody makes.
ghost use Rattle.relay_messages.specs.NoMessages.{no_state, no_start};

use crate::custom_link::CustomLink;
use crate::message_link::{Came, MessageLink, Sent};
use bytes::Bytes;
use http_header::HeaderMap;
use relay_tasks::{RequestHeader, ResponseHeader};

/// The link of messages of a connector that hands out links of bytes alone: no call makes one. It
/// would be silent for ever, and no call would change it: its resets and marks are at their last
/// value.
#[derive(Drop)]
pub struct NoMessages(());

impl MessageLink for NoMessages {
    ghost state = { no_state };

    ghost start = { no_start };

    fn send_head(&mut self, _head: &RequestHeader, _end: bool) -> Sent {
        Sent::Silent
    }

    fn send_body(&mut self, _piece: &Bytes, _end: bool) -> Sent {
        Sent::Silent
    }

    fn recv_head(&mut self) -> Came<(ResponseHeader, bool)> {
        Came::Silent
    }

    fn recv_body(&mut self) -> Came<(Bytes, bool)> {
        Came::Silent
    }

    fn recv_trailers(&mut self) -> Came<HeaderMap> {
        Came::Silent
    }

    fn reset(&mut self) {}

    fn mark_shutdown(&mut self) {}

    fn faults(&self) -> u64 {
        0
    }

    fn used(&self) -> u64 {
        0
    }
}

impl CustomLink for NoMessages {
    fn take_reader(&mut self) -> bool {
        false
    }

    fn take_writer(&mut self) -> bool {
        false
    }

    fn recv_message(&mut self) -> Came<Bytes> {
        Came::Silent
    }

    fn send_message(&mut self, _message: &Bytes) -> Sent {
        Sent::Silent
    }

    fn finish_custom(&mut self) -> Sent {
        Sent::Silent
    }
}

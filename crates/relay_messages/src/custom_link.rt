//! A custom link: a message link that carries messages of a protocol of its own beside them.
ghost use Rattle.std.specs.Prelude.{◌≡◌};
ghost use Rattle.relay_messages.specs.declared.item.Stream.TheVariants.{Messages};
ghost use Rattle.relay_messages.specs.declared.item.TakenItem.TheVariants as taken_item;
ghost use Rattle.relay_messages.specs.MessageLink.{Receives, Sends, given_message};

use crate::message_link::{Came, MessageLink, Sent};
use bytes::Bytes;

/// A message link with a stream of messages apart from its heads, bodies and trailers, in both
/// directions. What it gives of that stream has a silence and an end of its own.
pub trait CustomLink: MessageLink {
    /// Whether the link has a reader of messages; no call changes that.
    fn take_reader(&mut self) -> bool
        ensures reader { result ≡ (Self.start self.old).reader }
        ensures state { Self.state self.new ≡ Self.state self.old }
        ensures start { Self.start self.new ≡ Self.start self.old };

    /// Whether the link has a writer of messages; no call changes that.
    fn take_writer(&mut self) -> bool
        ensures writer { result ≡ (Self.start self.old).writer }
        ensures state { Self.state self.new ≡ Self.state self.old }
        ensures start { Self.start self.new ≡ Self.start self.old };

    /// Receives a message.
    fn recv_message(&mut self) -> Came<Bytes>
        ensures answer { Receives Messages given_message (Self.state self.old)
            (Self.state self.new) result }
        ensures start { Self.start self.new ≡ Self.start self.old };

    /// Offers a message.
    fn send_message(&mut self, message: &Bytes) -> Sent
        ensures answer { Sends (Self.state self.old) (taken_item.Message message.now)
            (Self.state self.new) result }
        ensures start { Self.start self.new ≡ Self.start self.old };

    /// Says that no further message will be sent.
    fn finish_custom(&mut self) -> Sent
        ensures answer { Sends (Self.state self.old) taken_item.Finish (Self.state self.new)
            result }
        ensures start { Self.start self.new ≡ Self.start self.old };
}

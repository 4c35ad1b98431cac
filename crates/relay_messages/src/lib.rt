//! Links of whole messages: heads, bodies and trailers in place of bytes, as HTTP/2 and custom
//! protocols have them, and versions in memory that follow a script.
#![tactic(auto)]

mod custom_link;
mod item;
mod item_place;
mod message_fault;
mod message_link;
mod message_script;
mod no_messages;
mod send_place;
#[cfg(test)]
mod tests;

pub use custom_link::CustomLink;
pub use item::{GivenItem, ItemKind, MessageItem, Stream, TakenItem};
pub use item_place::{ItemPlace, StreamPlaces};
pub use message_link::{Came, MessageLink, Sent};
pub use message_script::{MessageScript, MessageStarted, ScriptCustom, ScriptMessages};
pub use no_messages::NoMessages;
pub use send_place::SendPlace;

//! What a link in memory gives, as plain values.
use bytes::Bytes;
use relay_links::{ReadItem, ScriptLink};
use relay_tasks::Result;
use std::alloc::{AllocError, Global};

/// What a link gives.
#[derive(Clone, Copy, Drop)]
pub(super) enum Gives {
    /// That text, in one item.
    Text(&'static str),
    /// That text so many times, each in an item of its own.
    Times(u8, &'static str),
    /// An item for each byte of that text.
    ByteByByte(&'static str),
    /// Nothing more before so many bytes were taken.
    After(u32),
    /// The end.
    End,
}

/// Adds one item with these bytes.
fn push_bytes(items: &mut Vec<ReadItem>, bytes: Bytes) -> Result<()> {
    items
        .push(ReadItem::Bytes(bytes))
        .map_err(AllocError::from)?;
    Ok(())
}

/// Adds an item for each byte of the text.
fn push_each(alloc: Global, items: &mut Vec<ReadItem>, text: &str) -> Result<()> {
    for byte in text.as_bytes() {
        push_bytes(items, Bytes::copy_from_slice(alloc, &[*byte])?)?;
    }
    Ok(())
}

/// Adds what the link gives.
fn push(alloc: Global, items: &mut Vec<ReadItem>, gives: Gives) -> Result<()> {
    match gives {
        Gives::Text(text) => push_bytes(items, Bytes::from_static(text.as_bytes())),
        Gives::Times(times, text) => {
            for _ in 0..times {
                push_bytes(items, Bytes::from_static(text.as_bytes()))?;
            }
            Ok(())
        }
        Gives::ByteByByte(text) => push_each(alloc, items, text),
        Gives::After(taken) => Ok(
            items
                .push(ReadItem::After(taken))
                .map_err(AllocError::from)?,
        ),
        Gives::End => Ok(items.push(ReadItem::End).map_err(AllocError::from)?),
    }
}

/// A link that gives that, is silent behind it, and takes all.
pub(super) fn link(alloc: Global, script: &[Gives]) -> Result<ScriptLink> {
    let mut items = Vec::new(alloc);
    for gives in script {
        push(alloc, &mut items, *gives)?;
    }
    Ok(ScriptLink::new(alloc, items, Vec::new(alloc)))
}

/// Whether the link took just that text.
pub(super) fn has_taken(link: &ScriptLink, text: &str) -> bool {
    link.taken() == text.as_bytes()
}

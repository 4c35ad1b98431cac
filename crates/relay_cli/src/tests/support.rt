//! What the sweeps share: a script with a fault at one place of a list, and what its report says.
use super::answer;
use std::alloc::{AllocError, Global};

/// A text so many times.
pub(super) fn repeated(alloc: Global, text: &str, times: usize) -> Result<String, AllocError> {
    let mut all = String::new(alloc);
    for _ in 0..times {
        all.push_str(text)?;
    }
    Ok(all)
}

/// The digits of a byte in a script.
const DIGITS: [char; 16] = [
    '0', '1', '2', '3', '4', '5', '6', '7', '8', '9', 'a', 'b', 'c', 'd', 'e', 'f',
];

/// One item that gives these bytes, and a comma.
pub(super) fn hex_item(alloc: Global, bytes: &[u8]) -> Result<String, AllocError> {
    let mut item = String::from_str(alloc, "{\"hex\":\"")?;
    for byte in bytes {
        item.push(DIGITS[usize::from(byte / 16)])?;
        item.push(DIGITS[usize::from(byte % 16)])?;
    }
    item.push_str("\"},")?;
    Ok(item)
}

/// An item for each of these bytes, and a comma behind each.
fn one_by_one(alloc: Global, bytes: &[u8]) -> Result<String, AllocError> {
    let mut items = String::new(alloc);
    for byte in bytes {
        items.push_str(hex_item(alloc, &[*byte])?.as_str())?;
    }
    Ok(items)
}

/// Whether a line is the one that is wanted. Of what stands behind a `~` it may have a front alone.
fn is_line(found: &str, wanted: &str) -> bool {
    match wanted.split_once('~') {
        Some((front, rest)) => match found.strip_prefix(front) {
            Some(found) => rest.starts_with(found),
            None => false,
        },
        None => found == wanted,
    }
}

/// Whether a text begins with these lines.
fn begins(text: &str, lines: &[&str]) -> bool {
    let mut found = text.lines();
    for line in lines {
        match found.next() {
            Some(found) if is_line(found, line) => {}
            Some(_) | None => return false,
        }
    }
    true
}

/// Whether the script that these parts make is run, and its report begins with these lines.
pub(super) fn reports(alloc: Global, parts: &[&str], lines: &[&str]) -> Result<bool, AllocError> {
    let script = joined(alloc, parts)?;
    report_begins(alloc, script.as_str(), lines)
}

/// These parts as one text.
fn joined(alloc: Global, parts: &[&str]) -> Result<String, AllocError> {
    let mut text = String::new(alloc);
    for part in parts {
        text.push_str(part)?;
    }
    Ok(text)
}

/// Whether the script is run, and its report begins with these lines.
fn report_begins(alloc: Global, script: &str, lines: &[&str]) -> Result<bool, AllocError> {
    let report = answer(alloc, &["run"], script.as_bytes())?;
    Ok(begins(report.as_str(), lines))
}

/// The items of a client that asks for leave to send a body of five bytes, and waits for it; and
/// the body, byte by byte.
pub(super) const ASKING: &str = "{\"text\":\"PUT /e HTTP/1.1\\r\\nHost: h.example\\r\\n\
    Expect: 100-continue\\r\\nContent-Length: 5\\r\\n\\r\\n\"},{\"after\":25},";

pub(super) const SLOWLY: &str =
    "{\"text\":\"h\"},{\"text\":\"e\"},{\"text\":\"l\"},{\"text\":\"l\"},{\"text\":\"o\"}],";

/// The items of a peer that gives leave once the head came, and answers; and the end of a script.
pub(super) const ANSWERING: &str =
    "{\"after\":77},{\"text\":\"HTTP/1.1 100 Continue\\r\\n\\r\\n\"},\
    {\"text\":\"HTTP/1.1 200 OK\\r\\nContent-Length: 2\\r\\n\\r\\nhi\"}]}]}";

/// How many bytes the leave has, and the leave and the final head.
pub(super) const LEFT: usize = 25;

pub(super) const HEADED: usize = 63;

/// The line of a peer that is sent all of the request.
pub(super) const SENT_WHOLE: &str = "sent PUT /e HTTP/1.1\\r\\nhost: h.example\\r\\n\
    expect: 100-continue\\r\\ncontent-length: 5\\r\\n\\r\\nhello";

/// A script but for the items of one list, and the fault among them: the client's items come
/// before `front`, and `back` and `last` behind the list.
#[derive(Clone, Copy)]
pub(super) struct Sweep {
    pub(super) schedule: &'static str,
    pub(super) client: [&'static str; 2],
    pub(super) front: &'static str,
    pub(super) fault: &'static str,
    pub(super) back: &'static str,
    pub(super) last: &'static str,
}

impl Sweep {
    /// Whether the report begins so where the fault stands between these items.
    fn reports_between(
        &self,
        alloc: Global,
        before: &str,
        behind: &str,
        lines: &[&str],
    ) -> Result<bool, AllocError> {
        let [first, second] = self.client;
        let front = [
            "{\"schedule\":[",
            self.schedule,
            "],\"client\":[",
            first,
            second,
            self.front,
        ];
        let mut script = joined(alloc, &front)?;
        script.push_str(before)?;
        script.push_str(self.fault)?;
        script.push_str(behind)?;
        script.push_str(self.back)?;
        script.push_str(self.last)?;
        report_begins(alloc, script.as_str(), lines)
    }

    /// Whether the report begins so where a link that gives these bytes one by one fails before
    /// that of this number, or behind the last one.
    pub(super) fn reports_at_read(
        &self,
        alloc: Global,
        bytes: &[u8],
        at: usize,
        lines: &[&str],
    ) -> Result<bool, AllocError> {
        let (before, behind) = bytes.split_at(at.min(bytes.len()));
        let before = one_by_one(alloc, before)?;
        let behind = one_by_one(alloc, behind)?;
        self.reports_between(alloc, before.as_str(), behind.as_str(), lines)
    }

    /// Whether the report begins so where a link that takes five bytes at a write fails at the
    /// write of this number.
    pub(super) fn reports_at_write(
        &self,
        alloc: Global,
        at: usize,
        lines: &[&str],
    ) -> Result<bool, AllocError> {
        let takes = repeated(alloc, "{\"take\":5},", at)?;
        self.reports_between(alloc, takes.as_str(), "", lines)
    }
}

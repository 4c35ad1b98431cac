//! The authority tables once more, as a plain and slow program for texts of a few bytes in lower
//! case: it cuts and counts anew for each question, and takes nothing of the crate's own code.
//! What it answers is made of pieces of what it is asked.
ghost use Rattle.std.specs.Prelude.{◌≤◌, length};

use relay_tasks::{Context, ErrorSource};

/// A target: the parts of one that names an authority, else its bytes, and whether readers would
/// disagree on it.
#[derive(Clone, Copy)]
pub enum Target<'a> {
    Parts {
        scheme: &'a [u8],
        authority: &'a [u8],
        rest: &'a [u8],
    },
    Whole {
        text: &'a [u8],
        unclear: bool,
    },
}

/// Where the first byte of one of these two kinds stands, or the length.
fn place_of(text: &[u8], one: u8, other: u8) -> usize
    ensures { result ≤ length text.now }
{
    for (i, byte) in text.iter().enumerate() {
        if *byte == one || *byte == other {
            return i;
        }
    }
    text.len()
}

fn before(text: &[u8], one: u8, other: u8) -> &[u8] {
    text.split_at(place_of(text, one, other)).0
}

fn behind(text: &[u8], one: u8, other: u8) -> &[u8] {
    text.split_at(place_of(text, one, other)).1
}

fn without_first(text: &[u8]) -> &[u8] {
    if text.is_empty() {
        return text;
    }
    text.split_at(1).1
}

fn is_scheme(text: &[u8]) -> bool {
    for (i, byte) in text.iter().enumerate() {
        let later = byte.is_ascii_digit() || matches!(*byte, b'+' | b'-' | b'.');
        if !byte.is_ascii_alphabetic() && (i == 0 || !later) {
            return false;
        }
    }
    !text.is_empty()
}

/// The target, cut at its first colon.
pub fn cut(target: &[u8]) -> Target<'_> {
    let scheme = before(target, b':', b':');
    let behind_colon = without_first(behind(target, b':', b':'));
    if !is_scheme(scheme) || scheme.len() == target.len() {
        return Target::Whole {
            text: target,
            unclear: false,
        };
    }
    let text = without_first(without_first(behind_colon));
    let authority = before(text, b'/', b'?');
    let clear = !authority.is_empty() && !authority.contains(&b'\\');
    if !behind_colon.starts_with(b"//") || !clear {
        let web = scheme == b"http".as_slice() || scheme == b"https".as_slice();
        return Target::Whole {
            text: target,
            unclear: web || behind_colon.starts_with(b"//"),
        };
    }
    Target::Parts {
        scheme,
        authority,
        rest: behind(text, b'/', b'?'),
    }
}

fn count(text: &[u8], byte: u8) -> usize {
    text.iter().filter(|b| **b == byte).count()
}

/// What follows the last `@` or `]`.
fn last_piece(text: &[u8]) -> &[u8] {
    let mut piece = text;
    for _ in 0..text.len() {
        if piece.contains(&b'@') || piece.contains(&b']') {
            piece = without_first(behind(piece, b'@', b']'));
        }
    }
    piece
}

fn may_follow(front: &[u8], byte: u8) -> bool {
    match byte {
        b':' => count(last_piece(front), b':') < 8,
        b'[' => count(front, b'[') == 0 && count(last_piece(front), b'%') == 0,
        b']' => count(front, b'[') > 0 && count(front, b']') == 0,
        b'/' | b'?' | b'#' | b'\\' => false,
        _ => true,
    }
}

/// Whether the text is an authority: each byte may follow those in front of it, and the whole
/// closes its bracket and ends in a host with one port at most.
fn is_authority(text: &[u8]) -> bool {
    for (i, byte) in text.iter().enumerate() {
        if !may_follow(text.split_at(i).0, *byte) {
            return false;
        }
    }
    count(text, b'[') == count(text, b']')
        && count(last_piece(text), b':') <= 1
        && count(last_piece(text), b'%') == 0
        && !text.is_empty()
        && text.last() != Some(&b'@')
}

fn has_at(text: &[u8]) -> bool {
    count(text, b'@') > 0
}

fn host_fault(host: &[u8]) -> Option<Context> {
    if has_at(host) {
        return Some(Context::UserinfoHost);
    }
    (!host.is_empty() && !is_authority(host)).then_some(Context::HostInvalid)
}

fn authority_fault(authority: &[u8], host: Option<&[u8]>) -> Option<Context> {
    if has_at(authority) {
        return Some(Context::Userinfo);
    }
    match host {
        Some(host) => (host != authority).then_some(Context::HostMismatch),
        None => None,
    }
}

fn target_fault(target: Target<'_>, host: Option<&[u8]>) -> Option<Context> {
    match target {
        Target::Whole { text: _, unclear } => unclear.then_some(Context::Ambiguous),
        Target::Parts {
            scheme: _,
            authority,
            rest: _,
        } => authority_fault(authority, host),
    }
}

/// Why a head of this target and this Host is refused, if it is.
pub fn validated(target: Target<'_>, host: Option<&[u8]>) -> Option<Context> {
    let Some(text) = host else {
        return target_fault(target, host);
    };
    match host_fault(text) {
        Some(why) => Some(why),
        None => target_fault(target, host),
    }
}

/// The Host that a head of this target and this Host gets.
fn host_set<'a>(target: Target<'a>, host: Option<&'a [u8]>) -> Result<&'a [u8], Context> {
    match target {
        Target::Whole {
            text: _,
            unclear: _,
        } => match host {
            Some(host) => Ok(host),
            None => Ok(b""),
        },
        Target::Parts {
            scheme: _,
            authority,
            rest: _,
        } => {
            if has_at(authority) {
                return Err(Context::Userinfo);
            }
            Ok(authority)
        }
    }
}

/// The target once it says what Host says.
fn reconciled<'a>(target: Target<'a>, host: &'a [u8]) -> Result<Target<'a>, Context> {
    if has_at(host) {
        return Err(Context::UserinfoHost);
    }
    match target {
        Target::Whole {
            text: _,
            unclear: _,
        } => Ok(target),
        Target::Parts {
            scheme,
            authority,
            rest,
        } => {
            if host != authority && !is_authority(host) {
                return Err(Context::HostInvalid);
            }
            Ok(Target::Parts {
                scheme,
                authority: host,
                rest,
            })
        }
    }
}

/// The path over HTTP/2 behind its first byte, up to a fragment; that byte is `/`, but in `*`.
fn path(target: Target<'_>) -> Result<&[u8], Context> {
    match target {
        Target::Whole { text, unclear } => {
            if unclear {
                return Err(Context::Ambiguous);
            }
            if text.starts_with(b"/") {
                return Ok(before(without_first(text), b'#', b'#'));
            }
            Ok(b"")
        }
        Target::Parts {
            scheme: _,
            authority: _,
            rest,
        } => {
            let text = if rest.starts_with(b"/") {
                without_first(rest)
            } else {
                rest
            };
            Ok(before(text, b'#', b'#'))
        }
    }
}

/// Why the raw host cannot stand in a URI, if it cannot.
fn raw_host_fault(host: &[u8]) -> Option<Context> {
    if !is_authority(host) {
        return Some(Context::HostInvalid);
    }
    has_at(host).then_some(Context::UserinfoHost)
}

/// What is sent over HTTP/1 in place of target and Host.
#[derive(Clone, Copy)]
pub struct OverH1<'a> {
    pub target: Target<'a>,
    pub host: Option<&'a [u8]>,
}

fn authority_of<'a>(target: Target<'a>) -> Option<&'a [u8]> {
    match target {
        Target::Whole {
            text: _,
            unclear: _,
        } => None,
        Target::Parts {
            scheme: _,
            authority,
            rest: _,
        } => Some(authority),
    }
}

fn followed<'a>(target: Target<'a>, host: Option<&'a [u8]>) -> Result<Target<'a>, Context> {
    match host {
        Some(host) => reconciled(target, host),
        None => Ok(target),
    }
}

fn judged<'a>(target: Target<'a>, host: Option<&'a [u8]>) -> Result<OverH1<'a>, Context> {
    match validated(target, host) {
        Some(why) => Err(why),
        None => Ok(OverH1 { target, host }),
    }
}

/// The target and the Host that are sent over HTTP/1 for a client that is not custom.
pub fn over_h1<'a>(target: Target<'a>, host: Option<&'a [u8]>) -> Result<OverH1<'a>, Context> {
    let target = followed(target, host)?;
    if host.is_none() && authority_of(target).is_none() {
        return judged(target, None);
    }
    let host = host_set(target, host)?;
    judged(target, Some(host))
}

/// A refusal and its side.
#[derive(Clone, Copy)]
pub struct Blame {
    pub why: Context,
    pub side: ErrorSource,
}

pub fn inside(why: Context) -> Blame {
    Blame {
        why,
        side: ErrorSource::Internal,
    }
}

/// What is sent over HTTP/2 in place of target and Host; the path is behind its first byte.
#[derive(Clone, Copy)]
pub struct OverH2<'a> {
    pub authority: &'a [u8],
    pub path: &'a [u8],
}

/// The authority and the path that are sent over HTTP/2 for a custom client.
pub fn addressed<'a>(target: Target<'a>, host: Option<&'a [u8]>) -> Result<OverH2<'a>, Blame> {
    let Some(authority) = host else {
        return Err(inside(Context::NoAuthorityH2));
    };
    let path = match path(target) {
        Ok(path) => path,
        Err(why) => return Err(inside(why)),
    };
    match raw_host_fault(authority) {
        Some(why) => Err(Blame {
            why,
            side: ErrorSource::Unset,
        }),
        None => Ok(OverH2 { authority, path }),
    }
}

fn settled<'a>(target: Target<'a>, host: Option<&'a [u8]>) -> Result<OverH1<'a>, Context> {
    judged(followed(target, host)?, host)
}

/// The authority and the path that are sent over HTTP/2 for a client that is not custom.
pub fn over_h2<'a>(target: Target<'a>, host: Option<&'a [u8]>) -> Result<OverH2<'a>, Blame> {
    match settled(target, host) {
        Err(why) => Err(inside(why)),
        Ok(head) => match head.host {
            Some(host) => addressed(head.target, Some(host)),
            None => addressed(head.target, authority_of(head.target)),
        },
    }
}

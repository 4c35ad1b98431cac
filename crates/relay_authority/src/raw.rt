//! How a raw target is cut into scheme, authority and the rest (RFC 3986, section 3).
ghost use Rattle.std.specs.Prelude.{◌≡◌, ◌≤◌, length};
ghost use Rattle.relay_authority.specs.Target.{Tells, is_scheme_byte, scheme_len, authority_len, is_plain, is_web};

use crate::target::RawTargetAuthority;

fn is_scheme_byte(byte: u8) -> bool
    ensures { result ≡ is_scheme_byte byte }
{
    byte.is_ascii_alphanumeric() || byte == b'+' || byte == b'-' || byte == b'.'
}

fn scheme_len(target: &[u8]) -> usize
    ensures value { result ≡ scheme_len target.now }
    ensures within { result ≤ length target.now }
{
    target.iter().take_while(|b| is_scheme_byte(**b)).count()
}

fn authority_len(text: &[u8]) -> usize
    ensures value { result ≡ authority_len text.now }
    ensures within { result ≤ length text.now }
{
    text.iter()
        .take_while(|b| !(**b == b'/' || **b == b'?'))
        .count()
}

fn is_plain(authority: &[u8]) -> bool
    ensures { result ≡ is_plain authority.now }
{
    !authority.is_empty() && !authority.contains(&b'\\')
}

fn is_web(scheme: &[u8]) -> bool
    ensures { result ≡ is_web scheme.now }
{
    scheme.eq_ignore_ascii_case(b"http") || scheme.eq_ignore_ascii_case(b"https")
}

/// The authority that a raw target names.
pub fn raw_target_authority(target: &[u8]) -> RawTargetAuthority<'_>
    ensures { Tells target.now result }
{
    let Some(first) = target.first() else {
        return RawTargetAuthority::None;
    };
    let (scheme, behind) = target.split_at(scheme_len(target));
    if !first.is_ascii_alphabetic() || behind.first() != Some(&b':') {
        return RawTargetAuthority::None;
    }
    if !behind.starts_with(b"://") {
        if is_web(scheme) {
            return RawTargetAuthority::AmbiguousAuthority;
        }
        return RawTargetAuthority::None;
    }
    let rest = behind.split_at(3).1;
    let (authority, path_and_query) = rest.split_at(authority_len(rest));
    if !is_plain(authority) {
        return RawTargetAuthority::AmbiguousAuthority;
    }
    RawTargetAuthority::Absolute {
        scheme,
        authority,
        path_and_query,
    }
}

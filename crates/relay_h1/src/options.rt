//! The options of a connection, which the field Connection lists (RFC 9110, section 7.6.1).
ghost use Rattle.std.specs.Prelude.{◌≡◌, codes};
ghost use Rattle.relay_h1.specs.Options.{is_close, says_close, lists_close, closes};

use http_header::{CONNECTION, HeaderMap};

/// Whether a Connection field has the option `close`: a member of its comma-separated values,
/// without the blanks around it, in any case.
pub fn closes(fields: &HeaderMap) -> bool
    ensures { result ≡ closes fields.now }
{
    fields
        .get_all(&CONNECTION)
        .iter()
        .any(|value| lists_close(value.as_bytes()))
}

fn lists_close(value: &[u8]) -> bool
    ensures { result ≡ lists_close value.now }
{
    value
        .split(|byte| *byte == b',')
        .any(|member| says_close(member))
}

fn says_close(member: &[u8]) -> bool
    ensures { result ≡ says_close member.now }
{
    is_close(member.trim_ascii())
}

fn is_close(option: &[u8]) -> bool
    ensures { result ≡ is_close option.now }
{
    option.eq_ignore_ascii_case(b"close")
}

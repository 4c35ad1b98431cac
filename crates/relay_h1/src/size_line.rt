//! The line in front of a chunk, which gives its size (RFC 9112, section 7.1).
ghost use Rattle.std.specs.Prelude.{◌≡◌, ◌<◌, ◌≤◌, true, length};
ghost use Rattle.std.specs.Fmt.{digit_glyph};
ghost use Rattle.relay_h1.specs.BodyWire.{size_line};

use std::marker::Model;

/// How many hexadecimal digits a size has at most.
const MAX_DIGITS: usize = 16;

const DIGITS: [u8; 16] = *b"0123456789ABCDEF";

/// The line that gives a chunk's size, seen as its bytes. It is written from its end.
#[derive(Drop)]
pub(crate) struct SizeLine {
    bytes: [u8; 18],
    start: usize,
}

impl Model for SizeLine {
    ghost use Rattle.std.specs.Prelude.{List, ℕ, ◌≤◌, drop};

    ghost Value = { List ℕ };

    ghost view = { λ l. drop l.start l.bytes };

    ghost invariant = { λ l. l.start ≤ 18 };
}

impl SizeLine {
    /// The line for a chunk of so many bytes.
    pub(crate) fn new(size: u64) -> SizeLine
        ensures { result ≡ size_line size }
    {
        let mut bytes = *b"0000000000000000\r\n";
        let mut start = MAX_DIGITS - 1;
        let mut left = size;
        while left >= 16 {
            bytes[start] = digit(left % 16);
            left /= 16;
            start -= 1;
        }
        bytes[start] = digit(left);
        SizeLine { bytes, start }
    }

    /// The bytes of the line, CR LF among them.
    pub(crate) fn as_bytes(&self) -> &[u8]
        ensures value { result.now ≡ self.now }
        ensures short { length result.now ≤ 18 }
    {
        &self.bytes[self.start..]
    }
}

fn digit(value: u64) -> u8
    requires { value < 16 }
    ensures { result ≡ digit_glyph true value }
{
    DIGITS[value as usize]
}

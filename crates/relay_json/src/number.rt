//! Numbers: what a word spells in plain decimal digits.
ghost use Rattle.std.specs.Prelude.{MatchOption};
ghost use Rattle.relay_json.specs.Number.{SpellsNumber, SpellsNoNumber};

use itoa::Buffer;
use std::str;

/// The number below 2^16 that a word spells in plain decimal digits without a leading zero.
pub fn parse_number(word: &[u8]) -> Option<u16>
    ensures { MatchOption result (SpellsNoNumber word.now) (SpellsNumber word.now) }
{
    let Ok(text) = str::from_utf8(word) else {
        return None;
    };
    let Ok(number) = text.parse::<u16>() else {
        return None;
    };
    let mut buffer = Buffer::new();
    if buffer.format(number).as_bytes() != word {
        return None;
    }
    Some(number)
}

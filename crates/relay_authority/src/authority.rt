//! What an authority is (RFC 3986, section 3.2), and what is asked of one.
ghost use Rattle.std.specs.Prelude.{◌≡◌, ◌↔◌, IsTrue};
ghost use Rattle.http_uri.specs.ByteClasses.{is_authority_byte};
ghost use Rattle.http_uri.specs.Grammar.{IsAuthority};
ghost use Rattle.relay_authority.specs.Heads.{HasUserinfo};
ghost use Rattle.relay_authority.specs.Target.{lower};

// An IPv6 address in brackets has up to seven colons, and userinfo some too.
const MAX_COLONS: u8 = 8;

fn is_authority_byte(byte: u8) -> bool
    ensures { result ≡ is_authority_byte byte }
{
    matches!(byte, b'!' | b'$'..=b'.' | b'0'..=b';' | b'=' | b'@'..=b'[' | b']' | b'_')
        || matches!(byte, b'a'..=b'z' | b'~')
}

/// Whether the text is an authority as `http_uri` takes it: one pair of brackets at most, and
/// behind it and the userinfo no `%` and one colon at most. It takes no memory.
pub fn is_authority(text: &[u8]) -> bool
    ensures { IsTrue result ↔ IsAuthority text.now }
{
    let mut colons = 0;
    let mut opened = false;
    let mut closed = false;
    let mut percent = false;
    for byte in text {
        if !is_authority_byte(*byte) {
            return false;
        }
        match *byte {
            b':' => {
                if colons == MAX_COLONS {
                    return false;
                }
                colons += 1;
            }
            b'%' => percent = true,
            b'[' => {
                if opened || percent {
                    return false;
                }
                opened = true;
            }
            b']' => {
                if closed || !opened {
                    return false;
                }
                closed = true;
                colons = 0;
                percent = false;
            }
            b'@' => {
                colons = 0;
                percent = false;
            }
            _ => {}
        }
    }
    if opened != closed || colons > 1 || percent {
        return false;
    }
    !text.is_empty() && text[text.len() - 1] != b'@'
}

/// Whether there is an `@` in the text.
pub fn has_userinfo(text: &[u8]) -> bool
    ensures { IsTrue result ↔ HasUserinfo text.now }
{
    text.contains(&b'@')
}

/// Whether the texts are equal, whatever their case.
pub fn agree(text: &[u8], other: &[u8]) -> bool
    ensures { IsTrue result ↔ (lower text.now ≡ lower other.now) }
{
    text.eq_ignore_ascii_case(other)
}

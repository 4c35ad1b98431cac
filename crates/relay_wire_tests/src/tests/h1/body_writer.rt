use relay_h1::*;
use std::alloc::{AllocError, Global};
use std::test::Fail as Failed;

type Checked = std::result::Result<(), Failed>;

/// Writes the piece, and tells how many of its bytes were taken; none also without memory.
fn write(writer: &mut BodyWriter, out: &mut Vec<u8>, piece: &[u8]) -> Option<u64> {
    match writer.write(out, piece) {
        Ok(count) => count,
        Err(_) => None,
    }
}

/// Whether a body of three pieces, the second of no bytes, of which so many bytes are taken, is
/// written so.
fn writes(alloc: Global, framing: Framing, counts: [Option<u64>; 3], want: &[u8]) -> bool {
    let mut out = Vec::new(alloc);
    let mut writer = BodyWriter::new(framing);
    let first = write(&mut writer, &mut out, b"hello");
    let second = write(&mut writer, &mut out, b"");
    let third = write(&mut writer, &mut out, b"hello, world");
    let end = writer.finish(&mut out).is_ok();
    end && [first, second, third] == counts && writer.is_done() && out.as_slice() == want
}

#[test]
fn writes_chunks_up_to_a_length_and_raw(rt: HostRuntime) {
    let (five, no, two, twelve) = (Some(5), Some(0), Some(2), Some(12));
    for (framing, counts, want) in [
        (
            Framing::Chunked,
            [five, no, twelve],
            "5\r\nhello\r\nC\r\nhello, world\r\n0\r\n\r\n",
        ),
        (Framing::Length(7), [five, no, two], "hellohe"),
        (Framing::UntilClose, [five, no, twelve], "hellohello, world"),
        (Framing::Empty, [None, None, None], ""),
    ] {
        assert!(rt;
            writes(rt.alloc(), framing, counts, want.as_bytes()),
            "{want}"
        );
    }
}

/// Whether the bytes behind an upgrade are written as they are.
fn upgrades(alloc: Global) -> bool {
    let mut out = Vec::new(alloc);
    let mut writer = BodyWriter::new(Framing::Chunked);
    let end = writer.finish(&mut out).is_ok();
    writer.upgrade();
    let count = write(&mut writer, &mut out, b"ping");
    end && count == Some(4) && out.as_slice() == b"0\r\n\r\nping".as_slice()
}

#[test]
fn writes_raw_bytes_after_an_upgrade(rt: HostRuntime) {
    assert!(rt; upgrades(rt.alloc()));
}

/// Whether a chunk of so many bytes begins with that line.
fn begins(alloc: Global, size: usize, line: &str) -> std::result::Result<bool, AllocError> {
    let mut piece = Vec::new(alloc);
    piece.resize(size, b'x')?;
    let mut out = Vec::new(alloc);
    let count = write(
        &mut BodyWriter::new(Framing::Chunked),
        &mut out,
        piece.as_slice(),
    );
    Ok(count.is_some() && out.as_slice().starts_with(line.as_bytes()))
}

#[test]
fn writes_sizes_in_hexadecimal(rt: HostRuntime) -> Checked {
    for (size, line) in [
        (9, "9\r\nx"),
        (10, "A\r\nx"),
        (16, "10\r\nx"),
        (2748, "ABC\r\nx"),
        (4096, "1000\r\nx"),
    ] {
        assert!(rt; begins(rt.alloc(), size, line)?, "{size}");
    }
    Ok(())
}

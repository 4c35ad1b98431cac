//! The room of a read, and what is copied into it.
ghost use Rattle.std.specs.Prelude.{◌≡◌, ◌-◌, ◌≤◌, length, min, take, drop};

/// Copies the start of the bytes behind `done` into the room, and says how many.
pub fn give(bytes: &[u8], done: usize, room: &mut [u8]) -> usize
    requires { done ≤ length bytes.now }
    ensures count { result ≡ min (length bytes.now - done) (length room.old) }
    ensures bytes { take result room.new ≡ take result (drop done bytes.now) }
{
    let rest = &bytes[done..];
    let count = rest.len().min(room.len());
    room[..count].copy_from_slice(&rest[..count]);
    count
}

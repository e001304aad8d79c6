ghost use Rattle.std.specs.Prelude.{◌≡◌, ◌-◌, ◌≤◌, length, take, drop, min};

/// Copies a prefix of the content after `at` to the start of the room, and returns its length in bytes.
pub fn give(content: &[u8], at: usize, room: &mut [u8]) -> usize
    requires { at ≤ length content.now }
    ensures count { result ≡ min (length room.new) (length content.now - at) }
    ensures prefix { take result room.new ≡ take result (drop at content.now) }
{
    let left = &content[at..];
    let count = room.len().min(left.len());
    room[..count].copy_from_slice(&left[..count]);
    count
}

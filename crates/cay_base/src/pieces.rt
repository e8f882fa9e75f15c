//! Moving as many bytes as fit.

ghost use Rattle.std.specs.Prelude.{◌≡◌, ◌+◌, ◌<◌, ◌≤◌, ◌↔◌, ◌++◌, [], IsTrue, length, min, take, drop, vec_len, vec_capacity};
ghost use Rattle.cay_base.specs.Memory.{fitting};

/// Copies the bytes from a place on into the front of the room, at most so many, and answers how many.
pub fn copy_from(bytes: &[u8], at: usize, room: &mut [u8], most: usize) -> usize
    requires start { at ≤ length bytes.now }
    requires some { 1 ≤ most }
    ensures count { result ≡ min most (min (length room.old) (length (drop at bytes.now))) }
    ensures copied { drop at bytes.now ≡ take result room.new ++ drop (at + result) bytes.now }
    ensures end { result ≡ 0 → 0 < length room.old → drop (at + result) bytes.now ≡ [] }
{
    let left = &bytes[at..];
    let count = most.min(room.len()).min(left.len());
    room[..count].copy_from_slice(&left[..count]);
    count
}

/// Puts the piece, or what fits of it, behind bytes that have room for `most`, and answers whether all of it fitted.
pub fn append_fitting(bytes: &mut Vec<u8>, most: usize, piece: &[u8]) -> bool
    requires within { vec_len bytes.old ≤ most }
    requires room { most ≤ vec_capacity bytes.old }
    ensures bytes { bytes.new.items ≡ bytes.old.items ++ fitting most bytes.old.items piece.now }
    ensures fits { IsTrue result ↔ (length bytes.old.items + length piece.now ≤ most) }
    ensures room { most ≤ vec_capacity bytes.new }
    ensures within { vec_len bytes.new ≤ most }
{
    let count = piece.len().min(most - bytes.len());
    bytes.extend_from_slice(&piece[..count]).unwrap();
    count == piece.len()
}

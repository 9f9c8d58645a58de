//! Bytes in a list of bounded length.
ghost use Rattle.std.specs.Prelude.{◌≡◌, ◌≤◌, length};

use arrayvec::ArrayVec;

/// A copy of some bytes.
pub fn bounded_bytes<const N: usize>(bytes: &[u8]) -> ArrayVec<u8, N>
    requires { length bytes.now ≤ N }
    ensures value { result.items ≡ bytes.now }
{
    let mut copy = ArrayVec::new();
    match copy.try_extend_from_slice(bytes) {
        Ok(()) => copy,
        Err(_) => unreachable!(),
    }
}

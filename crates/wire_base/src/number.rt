//! Big-endian numbers (network byte order, RFC 791, appendix B) at a place of a slice, and pieces
//! written one after another.
ghost use Rattle.std.specs.Prelude.{◌≡◌, ℕ, ◌+◌, ◌<◌, ◌≤◌, ◌++◌, length, take, drop};
ghost use Rattle.wire_base.specs.Bytes.{bytes_between, flag_at, be16_at, be32_at, be64_at};

/// The number of two bytes at a place.
pub fn read_be16(bytes: &[u8], at: usize) -> u16
    requires { at + 2 ≤ length bytes.now }
    ensures { result ≡ be16_at bytes.now at }
{
    u16::from_be_bytes([bytes[at], bytes[at + 1]])
}

/// The number of four bytes at a place.
pub fn read_be32(bytes: &[u8], at: usize) -> u32
    requires { at + 4 ≤ length bytes.now }
    ensures { result ≡ be32_at bytes.now at }
{
    u32::from_be_bytes([bytes[at], bytes[at + 1], bytes[at + 2], bytes[at + 3]])
}

/// The number of eight bytes at a place.
pub fn read_be64(bytes: &[u8], at: usize) -> u64
    requires { at + 8 ≤ length bytes.now }
    ensures { result ≡ be64_at bytes.now at }
{
    u64::from_be_bytes(read_array(bytes, at))
}

/// The bytes from a place on that an array of their number takes.
pub fn read_array<const N: usize>(bytes: &[u8], at: usize) -> [u8; N]
    requires { at + N ≤ length bytes.now }
    ensures { result ≡ bytes_between at (at + N) bytes.now }
{
    let mut array = [0; N];
    array.copy_from_slice(&bytes[at..at + N]);
    array
}

/// One bit of the byte at a place, the lowest one being bit 0.
pub fn read_flag(bytes: &[u8], at: usize, bit: u32) -> bool
    requires within { at < length bytes.now }
    requires bit { bit < 8 }
    ensures { result ≡ flag_at bytes.now at bit }
{
    (bytes[at] >> bit) & 1 == 1
}

/// Writes a piece at a place, and answers where it ends.
pub fn append(into: &mut [u8], at: usize, piece: &[u8]) -> usize
    requires { at + length piece.now ≤ length into.old }
    ensures end { result ≡ at + length piece.now }
    ensures front { take result into.new ≡ take at into.old ++ piece.now }
    ensures rest { (n : ℕ) → result ≤ n → drop n into.new ≡ drop n into.old }
{
    let end = at + piece.len();
    into[at..end].copy_from_slice(piece);
    end
}

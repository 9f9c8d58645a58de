//! The buffer for received packets.
ghost use Rattle.std.specs.Prelude.{◌≡◌};
ghost use Rattle.std.specs.Option.{option_copied, option_map};
ghost use Rattle.dhcp_client.specs.Hearing.{laid_over};

/// Lays bytes to the front of a buffer that has room for them.
pub(crate) fn lay_over(buffer: &mut [u8], bytes: &[u8])
    ensures { buffer.new ≡ laid_over bytes.now buffer.old }
{
    if bytes.len() <= buffer.len() {
        buffer[..bytes.len()].copy_from_slice(bytes);
    }
}

/// The bytes of a buffer, if there is one.
pub(crate) fn packet_of<'s>(buffer: &'s Option<&mut [u8]>) -> Option<&'s [u8]>
    ensures { option_copied result ≡ option_map (λ bytes. bytes.now) buffer.now }
{
    match buffer {
        Some(buffer) => Some(buffer),
        None => None,
    }
}

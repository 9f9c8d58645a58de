//! Names as they are written.
use dns_client::{MulticastDns, name_bytes};
use std::test::Fail;

#[test]
fn a_name_is_stored_by_its_labels(rt: HostRuntime) -> Result<(), Fail> {
    for text in ["rust-lang.org", "rust-lang.org."] {
        let (bytes, mdns) = name_bytes(text)?;
        assert!(rt;
            bytes.as_slice() == b"\x09rust-lang\x03org\x00".as_slice()
                && mdns == MulticastDns::Disabled,
            "{text}"
        );
    }
    Ok(())
}

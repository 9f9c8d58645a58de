//! Runs with a link between the reader of the script and the host.
use net_host::{HostConfig, HostValues, Kind};
use net_wire::EthernetAddress;
use std::test::Fail;
use uses::{links, runs};

/// A frame of one byte at one second, and a tick at two seconds.
const SCRIPT: &[u8] =
    b"\x01\x00\x00\x00\x00\x00\x0f\x42\x40\x00\x01\x07\x02\x00\x00\x00\x00\x00\x1e\x84\x80";

#[test]
fn a_host_meets_what_a_link_lets_through(rt: HostRuntime) -> Result<(), Fail> {
    let alloc = rt.alloc();
    let config = HostConfig::new(HostValues {
        hardware: EthernetAddress([2; 6]),
        ip_mtu: 1500,
        retry: Default::default(),
        server_port: 67,
        client_port: 68,
        max_lease: None,
        ignore_naks: false,
        parameters: &[1, 3, 6],
        options: &[],
    })?;
    let words = [1, 2, 3, 4, 5, 6];
    let plain = runs::report_of(alloc, Vec::from_slice(alloc, SCRIPT)?, &config, &words);
    let muffled = links::report_without_frames(
        alloc,
        Vec::from_slice(alloc, SCRIPT)?,
        &config,
        &words,
    );
    let (Ok(plain), Ok(muffled)) = (plain, muffled) else {
        return Ok(());
    };
    let (Some(first), Some(met)) = (plain.rows().first(), muffled.rows().first()) else {
        return Ok(());
    };
    assert!(rt;
        first.kind == Kind::Frame { length: 1 } && met.kind == Kind::Tick && first.at == met.at
    );
    assert!(rt; plain.rows().len() == 2 && muffled.rows().len() == 2);
    Ok(())
}

//! The bytes of captures, as calls without a body (libpcap's file format, draft-ietf-opsawg-pcap).
ghost use Rattle.rule_examples.specs.CaptureBytes.{CaptureHeader, CaptureRecords, CaptureKinds};

/// The header of a file: magic number, version 2.4, 262144 bytes, link type.
pub fn capture_header()
    ensures { CaptureHeader }
{}

/// The record of a packet.
pub fn capture_records()
    ensures { CaptureRecords }
{}

/// Link types, and which frames are captured.
pub fn capture_kinds()
    ensures { CaptureKinds }
{}

//! The physical side of the host: sinks that bytes are written to, frames, and the capture of
//! frames.
#![tactic(auto)]

pub mod byte_sink;
pub mod capabilities;
pub mod capture_mode;
pub mod conversion;
pub mod device;
pub mod failing_calls;
pub mod fault_injector;
pub mod fault_layer;
pub mod fault_rule;
pub mod frame_bytes;
pub mod fuzz_injector;
pub mod fuzzer;
pub mod laws;
pub mod memory_device;
pub mod pcap;
pub mod pcap_writer;
pub mod sinks;
pub mod tracer;
pub mod tracer_packet;

pub use byte_sink::{ByteSink, SinkError};
pub use capabilities::{DeviceCapabilities, DeviceError, Medium, PacketMeta, TracerDirection};
pub use capture_mode::PcapMode;
pub use conversion::convert;
pub use device::Device;
pub use failing_calls::FailingCalls;
pub use fault_injector::FaultInjector;
pub use fault_layer::FaultLayer;
pub use fault_rule::{
    Fate, FaultOutcome, FaultSettings, FaultState, fault_outcome_of, flip_bit, meet_fate,
};
pub use frame_bytes::FrameBytes;
pub use fuzz_injector::FuzzInjector;
pub use fuzzer::Fuzzer;
pub use memory_device::MemoryDevice;
pub use pcap::{PcapLinkType, PcapSink};
pub use pcap_writer::{PcapRefused, PcapWriter};
pub use sinks::{MemorySink, SureSink, WriteSink};
pub use tracer::Tracer;
pub use tracer_packet::TracerPacket;

//! What changes the bytes of frames.
ghost use Rattle.std.specs.Prelude.{◌≡◌, ℕ, List, length};

/// Changes the bytes of a frame, and not their number.
pub trait Fuzzer {
    /// The fuzzer before and after a call, and the bytes before and after it.
    ghost fuzzed: { Self → Self → List ℕ → List ℕ → Type 0 };

    fn fuzz_packet(&mut self, packet_data: &mut [u8])
        ensures made { fuzzed self.old self.new packet_data.old packet_data.new }
        ensures len { length packet_data.new ≡ length packet_data.old };
}

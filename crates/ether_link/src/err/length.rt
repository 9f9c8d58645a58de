//! Too few bytes, or too many.
ghost use Rattle.std.specs.Prelude.{◌≡◌, ◌+◌, ◌<◌, ◌≤◌, length, MatchResult};

use crate::LenSource;
use crate::err::Layer;
use std::error::Error;
use std::fmt;

/// A part of a frame has another length than it needs.
#[derive(Clone, Copy, Debug, PartialEq, Eq, Hash)]
pub struct LenError {
    /// How many bytes are needed.
    pub required_len: usize,
    /// How many bytes are there.
    pub len: usize,
    /// Where the number of bytes that are there is from.
    pub len_source: LenSource,
    /// What they are needed for.
    pub layer: Layer,
    /// Where that begins, in bytes from the first one that was handed in.
    pub layer_start_offset: usize,
}

impl LenError {
    ghost use Rattle.ether_link.specs.Form.{len_error};

    /// A part at the start of a slice whose length is given.
    pub fn at_start(layer: Layer, len_source: LenSource, len: usize, required_len: usize) -> Self
        ensures value { result ≡ len_error layer len_source len required_len }
    {
        LenError {
            required_len,
            len,
            len_source,
            layer,
            layer_start_offset: 0,
        }
    }

    /// The same error, counted from `offset` bytes before.
    pub fn add_offset(self, offset: usize) -> Self
        requires { self.layer_start_offset + offset ≤ usize.MAX }
        ensures value { result ≡ record self { layer_start_offset = self.layer_start_offset + offset } }
    {
        LenError {
            layer_start_offset: self.layer_start_offset + offset,
            ..self
        }
    }
}

impl fmt::Display for LenError {
    ghost use Rattle.std.specs.Prelude.{Some};
    ghost use Rattle.ether_link.specs.Texts.{len_text};

    ghost output = { λ error. Some (len_text error) };

    fn fmt<W: fmt::Write>(&self, f: &mut fmt::Formatter<W>) -> fmt::Result {
        let LenError {
            required_len,
            len,
            layer,
            ..
        } = *self;
        write!(f, "{layer}: {required_len} bytes needed, {len} there")
    }
}

impl Error for LenError {}

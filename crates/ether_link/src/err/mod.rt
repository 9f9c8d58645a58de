//! Why a part is refused.

pub mod layers;
pub mod length;
pub mod linux_sll;
pub mod macsec;

pub use layers::Layer;
pub use length::LenError;

//! Laws that join the writers of frames to the layouts of packets, as calls without a body.
#![tactic(auto)]

pub mod laws;

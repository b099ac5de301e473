//! What a node of an IEEE 1394 bus tells of itself after a bus reset: its fields, the marks of its ports,
//! and the self-ID packets that carry them as words of 32 bits.

#![tactic(auto)]

pub mod code;
pub mod codec;
pub mod mark;
pub mod node;
pub mod packet;
pub mod speed;

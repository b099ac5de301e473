//! Codes: small numbers that stand for values, in packets and in descriptions.

// The number is no value's code.
#[derive(Clone, Copy, Debug, PartialEq, Eq)]
pub struct UnknownCode {
    pub code: u8,
}

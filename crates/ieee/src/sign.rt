// The weight of the sign's bit in a pattern.

pub(crate) const SIGN_32: u32 = 0x8000_0000;

pub(crate) const SIGN_64: u64 = 0x8000_0000_0000_0000;

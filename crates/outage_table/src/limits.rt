/// 1, in units of 2^-60.
pub const ONE: u128 = 1 << 60;

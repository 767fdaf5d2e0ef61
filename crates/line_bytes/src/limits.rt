// The limits of a decimal, which are counted in millionths.
// How many millionths one is.
pub const ONE: u64 = 1000000;

// The least size that no decimal has: 10^15 millionths.
pub const TOO_LARGE: u64 = 1000000000000000;

// The most decimals.
pub const MOST_DECIMALS: u64 = 6;

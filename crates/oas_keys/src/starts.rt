//! Where the classes of short numbers begin, so that these are written and read without a search for their class.

/// How many numbers of two bytes have the same first byte.
pub(crate) const TWO_EACH: u64 = 1 << 8;
/// How many of three bytes.
pub(crate) const THREE_EACH: u64 = 1 << 16;
/// How many of four bytes.
pub(crate) const FOUR_EACH: u64 = 1 << 24;

/// The least unsigned number of two bytes.
pub(crate) const TWO: u64 = 128;
/// The least of three bytes.
pub(crate) const THREE: u64 = TWO + 64 * TWO_EACH;
/// The least of four bytes.
pub(crate) const FOUR: u64 = THREE + 32 * THREE_EACH;
/// The least of five bytes.
pub(crate) const FIVE: u64 = FOUR + 16 * FOUR_EACH;

/// The first byte of the least unsigned number of two bytes.
pub(crate) const TWO_BYTE: u64 = 1 + 128;
/// That of three bytes.
pub(crate) const THREE_BYTE: u64 = TWO_BYTE + 64;
/// That of four bytes.
pub(crate) const FOUR_BYTE: u64 = THREE_BYTE + 32;
/// That of five bytes.
pub(crate) const FIVE_BYTE: u64 = FOUR_BYTE + 16;

/// The place of the least signed number of four bytes.
pub(crate) const BELOW_FOUR: u64 = (1 << 62) + (7 << 32);
/// The place of the least of three bytes.
pub(crate) const BELOW_THREE: u64 = BELOW_FOUR + 16 * FOUR_EACH;
/// The place of the least of two bytes.
pub(crate) const BELOW_TWO: u64 = BELOW_THREE + 32 * THREE_EACH;
/// The place of the least of one byte.
pub(crate) const ONE: u64 = BELOW_TWO + 40 * TWO_EACH;
/// The place of the least above 0 that has two bytes.
pub(crate) const ABOVE_TWO: u64 = ONE + 63;
/// The place of the least above 0 that has three.
pub(crate) const ABOVE_THREE: u64 = ABOVE_TWO + 40 * TWO_EACH;
/// The place of the least above 0 that has four.
pub(crate) const ABOVE_FOUR: u64 = ABOVE_THREE + 32 * THREE_EACH;

/// The first byte of the least signed number of five bytes.
pub(crate) const BELOW_FIVE_BYTE: u64 = 1 + 1;
/// That of the least of four bytes.
pub(crate) const BELOW_FOUR_BYTE: u64 = BELOW_FIVE_BYTE + 7;
/// That of the least of three bytes.
pub(crate) const BELOW_THREE_BYTE: u64 = BELOW_FOUR_BYTE + 16;
/// That of the least of two bytes.
pub(crate) const BELOW_TWO_BYTE: u64 = BELOW_THREE_BYTE + 32;
/// That of the least of one byte.
pub(crate) const ONE_BYTE: u64 = BELOW_TWO_BYTE + 40;
/// That of 0.
pub(crate) const ZERO_BYTE: u64 = ONE_BYTE + 31;
/// That of the least above 0 that has two bytes.
pub(crate) const ABOVE_TWO_BYTE: u64 = ONE_BYTE + 63;
/// That of the least above 0 that has three.
pub(crate) const ABOVE_THREE_BYTE: u64 = ABOVE_TWO_BYTE + 40;
/// That of the least above 0 that has four.
pub(crate) const ABOVE_FOUR_BYTE: u64 = ABOVE_THREE_BYTE + 32;
/// That of the least above 0 that has five.
pub(crate) const ABOVE_FIVE_BYTE: u64 = ABOVE_FOUR_BYTE + 16;

/// The least signed number of one byte.
pub(crate) const LEAST_ONE: i64 = -31;
/// The least of two bytes.
pub(crate) const LEAST_TWO: i64 = LEAST_ONE - (40 << 8);
/// The least of three.
pub(crate) const LEAST_THREE: i64 = LEAST_TWO - (32 << 16);
/// The least of four.
pub(crate) const LEAST_FOUR: i64 = LEAST_THREE - (16 << 24);
/// The least above 0 that has two bytes.
pub(crate) const LEAST_ABOVE_TWO: i64 = 32;
/// The least above 0 that has three.
pub(crate) const LEAST_ABOVE_THREE: i64 = LEAST_ABOVE_TWO + (40 << 8);
/// The least above 0 that has four.
pub(crate) const LEAST_ABOVE_FOUR: i64 = LEAST_ABOVE_THREE + (32 << 16);
/// The least above 0 that has five.
pub(crate) const LEAST_ABOVE_FIVE: i64 = LEAST_ABOVE_FOUR + (16 << 24);

//! The limits of what is read and told: RFC 8259 leaves them to the reader.

/// The most levels of lists and objects that a value may have.
pub const MOST_LEVELS: usize = 64;

/// The greatest magnitude at which a written exponent is kept, 2^62: beyond it no text that fits
/// memory has as many digits, so the value is zero, or fits nothing.
pub const MOST_EXPONENT: u64 = 1 << 62;

/// The greatest magnitude of a value that is told in halves: 2^20 of them.
pub const MOST_HALVES: u64 = 1 << 20;

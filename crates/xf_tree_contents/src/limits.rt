//! The limits of a forest.

/// One more than a forest ever has rows and kept texts.
pub const ROW_LIMIT: usize = 2147483648;

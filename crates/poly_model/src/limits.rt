// The limits, each under one name.

/// Values of a list of constraints.
pub const MAX_VARIABLES: u32 = 65_536;

/// Constraints of a list.
pub const MAX_CONSTRAINTS: u32 = 65_536;

/// Terms of a polynomial in a text.
pub const MAX_TERMS: u32 = 4096;

/// Factors of a term, and so the degree of constraints.
pub const MAX_FACTORS: usize = 8;

// How a file is taken.

/// How a file that lives through crashes is taken.
#[derive(Clone, Copy, Debug, PartialEq, Eq)]
pub enum Access {
    /// For reads and writes, where nobody else has it.
    Own,
    /// For reads alone, beside others that read it.
    Read,
}

// The limits, each under one name.

/// Units of a session, and of a lease.
pub const MAX_UNITS: u64 = 4096;

/// Products of a section.
pub const MAX_SECTION_LENGTH: u32 = 1 << 20;

/// Gates of a circuit.
pub const MAX_GATES: u32 = 1 << 24;

/// Wires of a circuit, and so its products, committed values and outputs.
pub const MAX_WIRES: u32 = 1 << 24;

/// Gates of a generated circuit, whose wires are 64 more.
pub const MAX_GENERATED_GATES: u32 = (1 << 20) - 64;

/// Input values of a circuit's text, and output values.
pub const MAX_VALUES: u32 = 1024;

/// Statements that a verifier offers.
pub const MAX_STATEMENTS: usize = 256;

/// Bytes of a frame's payload.
pub const MAX_PAYLOAD: usize = 1 << 28;

/// Bytes of a hello without a digest of public bits: five of its head, 97 of its payload.
pub const HELLO_LENGTH: usize = 102;

/// Bytes of a hello with one: its payload has 129.
pub const LONG_HELLO_LENGTH: usize = 134;

/// Bytes of a file that is loaded.
pub const FILE_LIMIT: u64 = 1 << 30;

/// Units of a dealt file.
pub const MAX_DEALT_UNITS: u64 = 1 << 40;

/// Units of a dealt file of the first version.
pub const MAX_FIRST_UNITS: u64 = 1 << 32;

/// Units up to which files are dealt in the first version.
pub const MAX_DEALT_AS_FIRST: u64 = 65_535;

/// Trees of an extended unit.
pub const MAX_TREES: u32 = 1024;

/// Levels of a tree.
pub const MAX_HEIGHT: u8 = 16;

/// Base pairs of an extended unit.
pub const MAX_BASE: u32 = 65_536;

/// Units of a store of leases or of claims.
pub const MAX_STORE_UNITS: u64 = 1 << 40;

/// Slots of a journal.
pub const MAX_SLOTS: u64 = 1 << 28;

/// Slots of a journal of claims that is dealt.
pub const MAX_CLAIM_SLOTS: u64 = 4096;

/// Slots of an area of a journal of ceilings.
pub const MAX_CEILING_SLOTS: u64 = 4096;

/// Passes of a store of leases.
pub const MAX_PASSES: u32 = 1024;

/// Nodes that share a verifier's file.
pub const MAX_NODES: u32 = 1024;

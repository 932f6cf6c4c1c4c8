// The limits of what is accepted, in one place.

/// The most nodes that a network may have.
pub const NODE_LIMIT: u32 = 1_000_000;

/// The most arcs that a network may have.
pub const ARC_LIMIT: u32 = 4_000_000;

/// The greatest budget of an ask, in ticks.
pub const BUDGET_LIMIT: u32 = 65_535;

/// The greatest denominator of a network's masses.
pub const SCALE_LIMIT: u32 = 1_000_000_000;

/// The most bytes of a graph, of histograms and of a script: 64 MiB.
pub const TEXT_LIMIT: u32 = 67_108_864;

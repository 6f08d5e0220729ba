//! The limits of the suite, each named once: specs and code cite these.

/// The most zones of a system.
pub const MOST_ZONES: u8 = 32;

/// The most interfaces of a system, and links of a network.
pub const MOST_INTERFACES: u32 = 128;

/// The most lines of a system.
pub const MOST_LINES: u32 = 512;

/// The most units of a system.
pub const MOST_UNITS: u32 = 2_048;

/// The most storages of a system, and devices of a network.
pub const MOST_STORAGES: u32 = 128;

/// The most hours of a system: those of a leap year.
pub const MOST_HOURS: u32 = 8_784;

/// The most MW that are pooled over all zones: unit capacity, charge capacity, discharge capacity, and of each
/// hour its load and its variable generation.
pub const MOST_POOLED_MW: u32 = 200_000;

/// The most MW of one limit of an interface or a line, and of each amount of a network.
pub const MOST_LINK_MW: u32 = 1_000_000;

/// The most kWh that one storage holds.
pub const MOST_ENERGY_KWH: u32 = 4_000_000_000;

/// The most bytes of a name.
pub const MOST_NAME_BYTES: u32 = 64;

/// The most bytes of one table: 64 MiB.
pub const MOST_TABLE_BYTES: usize = 67_108_864;

/// The most samples of a study.
pub const MOST_SAMPLES: u32 = 1_000_000;

/// The most samples of one block.
pub const MOST_BLOCK: u32 = 10_000;

/// The most workers of a study.
pub const MOST_WORKERS: u8 = 64;

/// The most MW of an outage table, and the greatest need that it is asked for.
pub const MOST_TABLE_MW: u32 = 400_000;

/// The most bytes of a console line.
pub const MOST_LINE_BYTES: u32 = 4_096;

/// A probability of 1 in billionths.
pub const BILLION: u32 = 1_000_000_000;

/// An efficiency or a carryover of 1 in thousandths.
pub const THOUSAND: u16 = 1_000;

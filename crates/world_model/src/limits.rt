//! How many there may be of what a world has.

/// The most workers.
pub const WORKER_LIMIT: usize = 16;

/// The most items in a packet.
pub const PACKET_LIMIT: usize = 32;

/// The most packets in a lane.
pub const LANE_LIMIT: usize = 64;

/// The credit that a worker draws at once.
pub const CREDIT_DRAWN: u64 = 64;

/// The most expansions that are granted at once.
pub const GREATEST_GRANT: u64 = 256;

// The largest number of each kind that is accepted.
pub const DIM: u32 = 256;

pub const CAPACITY: u32 = 65536;

pub const DEGREE: u32 = 64;

pub const BEAM: u32 = 1024;

pub const REPAIR_BEAM: u32 = 256;

pub const REPAIR_DEGREE: u32 = 16;

pub const IDS: u32 = 256;

pub const LANDMARKS: u32 = 64;

pub const MULTIPLIER: u32 = 16;

pub const SAMPLE: u32 = 65536;

pub const POOL: u32 = 1024;

pub const WEIGHT: u8 = 4;

pub const WEIGHT_SUM: u32 = 256;

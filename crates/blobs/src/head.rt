// The 110 bytes before the data of an entry.
pub const SIZE: usize = 110;

// "MSHB", the least significant byte first.
pub const MAGIC: u32 = 1112036173;

pub const VERSION: u16 = 1;

// Where the hash's digits begin and where they end.
pub const DIGITS: usize = 14;

pub const RESERVED: usize = 78;

// The meaning of the keeper: definitions in specs/, their laws in proofs/. Of code there are only the limits and numbers.
#![tactic(auto)]

// The rows of a device column, and of a link column.
pub const ROWS: usize = 256;

pub const LINKS: usize = 128;

// The greatest device count.
pub const DEVICES: u8 = 64;

// The parent of a device that has none.
pub const NONE: u8 = 255;

// Status of a device.
pub const SUSPENDED: u8 = 0;

pub const RESUMING: u8 = 1;

pub const ACTIVE: u8 = 2;

pub const SUSPENDING: u8 = 3;

// Error codes as they stand in a reply: 65,536 less Linux's number.
pub const EAGAIN: u16 = 65525;

pub const EACCES: u16 = 65523;

pub const EBUSY: u16 = 65520;

pub const EINVAL: u16 = 65514;

pub const EOVERFLOW: u16 = 65461;

pub const EINPROGRESS: u16 = 65421;

// The greatest disable depth, user holds, and magnitude of a runtime error.
pub const MAX_DEPTH: u8 = 255;

pub const MAX_HOLDS: u32 = 32767;

pub const MAX_ERROR: u32 = 4095;

// The most bytes of a piece of log.
pub const PIECE: usize = 4096;

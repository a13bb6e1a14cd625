//! The kinds of share data PDUs that are read or written here ([MS-RDPBCGR] 2.2.8.1.1.1.2, pduType2).

pub const CONTROL: u8 = 0x14;

pub const INPUT: u8 = 0x1C;

pub const SYNCHRONIZE: u8 = 0x1F;

pub const REFRESH_RECT: u8 = 0x21;

pub const SUPPRESS_OUTPUT: u8 = 0x23;

pub const SHUTDOWN_REQUEST: u8 = 0x24;

pub const FONT_LIST: u8 = 0x27;

pub const FONT_MAP: u8 = 0x28;

pub const PERSISTENT_KEY_LIST: u8 = 0x2B;

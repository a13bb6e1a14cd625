//! The license error message that ends licensing ([MS-RDPBCGR] 2.2.1.12).
//!
//! | offset | size | field | value |
//! |---|---|---|---|
//! | 0 | 4 | securityHeader | `80 00` SEC_LICENSE_PKT, `00 00` |
//! | 4 | 1 | bMsgType | `FF` ERROR_ALERT |
//! | 5 | 1 | flags | `03` PREAMBLE_VERSION_3_0 |
//! | 6 | 2 | wMsgSize | 16 |
//! | 8 | 4 | dwErrorCode | 7, STATUS_VALID_CLIENT |
//! | 12 | 4 | dwStateTransition | 2, ST_NO_TRANSITION |
//! | 16 | 2 | wBlobType | 4, BB_ERROR_BLOB |
//! | 18 | 2 | wBlobLen | 0 |

ghost use Rattle.std.specs.Prelude.{◌≡◌};
ghost use Rattle.info_lic.specs.Licence.{licence};

/// The message: no license is asked for, and the client is valid.
pub const LICENCE: [u8; 20] = [
    0x80, 0, 0, 0, // securityHeader
    0xFF, 3, 16, 0, // preamble
    7, 0, 0, 0, // dwErrorCode
    2, 0, 0, 0, // dwStateTransition
    4, 0, 0, 0, // bbErrorInfo
];

/// The law of the message: its bytes are the standard's fields.
pub fn the_licence_is_valid()
    ensures { LICENCE ≡ licence }
{}

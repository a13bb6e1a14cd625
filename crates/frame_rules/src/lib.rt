//! What a take sends to its viewer: the frame, its orders and its bytes, and what the encoder knows of the client ([MS-RDPBCGR] 2.2.9.1.1.3, [MS-RDPEGDI]
//! 2.2.2.2; the choices are profile).
//!
//! docs/frames.md tells it in sentences. The definitions stand in specs/.
#![tactic(auto)]

pub mod laws;

//! Laws of frames: each order that a frame sends is obeyed, whatever a cache holds still has its content, a tile is read, every state of a
//! legal journal is sound, and, from drawings to bytes, every frame shows the journal (profile for which drawings go as orders;
//! [MS-RDPEGDI] 2.2.2.2.1 and [MS-RDPBCGR] 2.2.9.1.1.3 for what a client reads).
#![tactic(auto)]

pub mod cache_laws;
pub mod laws;
pub mod shows;
pub mod state_laws;

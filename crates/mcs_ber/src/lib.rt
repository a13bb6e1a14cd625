//! Connecting by MCS: reading the client's Connect-Initial, and writing the server's Connect-Response (T.125, 7; X.690;
//! MS-RDPBCGR, 2.2.1.3 and 2.2.1.4).
#![tactic(auto)]

mod bad_ber;
mod connect_initial;
mod connect_response;
mod domain_parameters;
mod laws;

pub use bad_ber::BadBer;
pub use connect_initial::read_initial;
pub use connect_response::write_response;
pub use laws::connect_initials_are_read_exactly;

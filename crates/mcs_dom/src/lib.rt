//! The MCS domain PDUs: reading those of a client, and writing those of the server (T.125, 7; MS-RDPBCGR, 2.2.1.5 to 2.2.1.9
//! and 2.2.2.1).
#![tactic(auto)]

mod attach_user;
mod bad_domain;
mod channel_join;
mod domain_pdu;
mod erect_domain;
mod laws;
mod send_data;
mod ultimatum;
mod user;

pub use attach_user::write_attach;
pub use bad_domain::BadDomain;
pub use channel_join::write_join;
pub use domain_pdu::{DomainPdu, read_domain};
pub use laws::domain_pdus_are_read_exactly;
pub use send_data::{put_indication_headers, write_indication};
pub use ultimatum::write_end;

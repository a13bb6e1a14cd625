//! The adapters of the system: sockets as links and a gate, which are the clients that connect to a port, over TCP, and a file as a
//! store (profile).
#![tactic(auto)]

mod dial;
mod file_store;
mod gate;
mod limits;
mod link;
mod open;
mod options;
mod reader;
mod refusal;
mod stage;
mod writer;

pub use dial::TcpDial;
pub use file_store::FileStore;
pub use gate::TcpGate;
pub use limits::{LIMITS, Limits};
pub use link::{TcpLink, TcpSpent};
pub use reader::TcpReader;
pub use writer::TcpWriter;

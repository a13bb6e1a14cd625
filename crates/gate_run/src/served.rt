//! What serving a gate comes to.
use grow_lock::Pass;
use serve_rules::ConnReport;
use session_core::Session;

/// How the serving of a gate ended.
#[derive(Clone, Copy, Debug, PartialEq, Eq)]
pub enum GateEnd {
    /// The gate said that no further link will come.
    Ended,
    /// The gate failed to give the next link.
    Failed,
    /// The gate can't be opened, and gave no link.
    NoListen,
}

/// What serving a gate came to.
#[derive(Drop)]
pub struct Served {
    /// The closing session.
    pub session: Session,
    /// A report for each link, in the order in which the gate gave them.
    pub reports: Vec<ConnReport>,
    pub end: GateEnd,
}

/// What the links of a gate came to over a session that stays behind its lock.
#[derive(Drop)]
pub struct Met {
    /// The pass that met those of all links.
    pub pass: Pass<Session>,
    /// A report for each link, in the order in which the gate gave them.
    pub reports: Vec<ConnReport>,
    pub end: GateEnd,
}

//! What a link is served with: its host, and what is kept of its client.
use conn_core::Conn;
use conn_rules::ConnStep;
use grow_lock::GrowLock;
use serve_rules::Noted;
use session_core::Session;
use std::alloc::Global;

/// What every link of a host is served with: the host's runtime, its memory, and its session behind the lock.
#[derive(Drop)]
pub struct Host<'a, R> {
    pub rt: &'a R,
    pub alloc: Global,
    pub lock: &'a GrowLock<Session>,
}

/// A viewer's stay: what its host serves it with, and its number.
#[derive(Drop)]
pub struct Stay<'a, R> {
    pub rt: &'a R,
    pub alloc: Global,
    pub lock: &'a GrowLock<Session>,
    pub v: u32,
}

/// What tells how a viewer's connection ends: its stream as far as it was heard, the steps that were given behind Ready, and what was noted.
#[derive(Drop)]
pub struct Ends<'a> {
    pub conn: Conn,
    pub rest: &'a [ConnStep],
    pub noted: Noted,
}

/// The two halves of a link.
#[derive(Drop)]
pub struct Halves<'a, S, K> {
    pub input: &'a mut S,
    pub output: &'a mut K,
}

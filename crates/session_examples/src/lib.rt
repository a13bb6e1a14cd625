//! Worked examples of sessions, frames and scripts: they stand in proofs/, and compute.
#![tactic(auto)]

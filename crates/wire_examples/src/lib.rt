//! Worked examples of a client's connection and of orders, updates and captures: they stand in proofs/, and compute.
#![tactic(auto)]

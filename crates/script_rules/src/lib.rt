//! What scripts ask for and what captures say (both profile). Definitions, and laws about them.
#![tactic(auto)]

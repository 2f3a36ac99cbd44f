// The box of one peer for the field, on bytes: its layout, its parts read, and its parts changed.
// It uses field_rules for what the box is, bits to read and to write, state for places, counters for p and c.
#![tactic(auto)]

pub mod change; // the peer's part, changed
pub mod heard; // the hashes heard
pub mod layout;
pub mod part; // the peer's part, read
pub mod width; // how many bits a set of signers may have

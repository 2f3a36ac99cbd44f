// One function for each test in the field peer's lists of refusals: its promise is the very test of the list.
// It uses field_state to read the box, header for quorums, guard for sets that meet, sets for a board's items, and
// bag_guard's set of signers. Names and roles are tested by guard.
#![tactic(auto)]

pub mod board; // the peer's own board
pub mod fetch; // the rows of a fetch
pub mod held; // 10 and 11: what the peer holds
pub mod periods; // 9
pub mod shares; // 17 and 12: receipt shares
pub mod store; // 13 and 12: the hashes heard

// For each message to the field peer, and each step of its own, its refusals in the order in which they are judged.
// It uses field_guard for the tests.
#![tactic(auto)]

pub mod judge; // a row of tests for each

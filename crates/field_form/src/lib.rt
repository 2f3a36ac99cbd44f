// What bytes say to the field peer, done: not formed, another's, or a message or step of its own.
// It uses field_steps to do it, clash for the row of an item that is handed, form for the fields of bytes.
#![tactic(auto)]

pub mod read; // a message or a step, read from its bytes

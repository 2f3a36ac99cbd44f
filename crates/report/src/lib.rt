// The report's text: its lines, and what it shows of a state, written into a lent buffer.
// It uses text to write, state, bag and sets to read, and figures for the totals; it knows no step.
#![tactic(auto)]

pub mod lines; // a line of each kind
pub mod shown; // what is shown of a state

// Trials: each runs the steps that are kept, in place and from the fresh state, and gives the last answer. A pass tries
// each step before the last, and passes go on until one drops none. State and flags are lent.
// It uses dropping for which steps are left, rehearsal for the steps of an input, and engine to run them.
#![tactic(auto)]

pub mod flags; // which steps are kept
pub mod trial; // a run of the kept steps, and the last answer
pub mod pass; // trials from the last step but one to the first, and again

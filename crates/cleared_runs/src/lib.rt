// Runs with clears beside the same runs without them.
// It uses rules, form for what a call's bytes say, growth and gains for their words, and has no code.
#![tactic(auto)]

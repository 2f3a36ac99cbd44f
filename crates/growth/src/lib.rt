// How many entries a list of calls adds to the bag at most, and when no call is answered full.
// It uses gains for the count, form for what a call's bytes say, and rules, and has no code.
#![tactic(auto)]

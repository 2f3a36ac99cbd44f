// The contents of a state's bytes as the state of the rules, and what each step does to them.
// Here bytes meet rules. What stands above speaks of contents and of no place in the bytes,
// but for row 14, which bag_valid and valid say and test.
// It uses state for what the bytes say, header for the table, and rules; it has no code.
#![tactic(auto)]

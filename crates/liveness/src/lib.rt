// When a board comes: a close that comes through, for every engine that follows the rules, and that one can always be
// had.
// No function stands here. It uses the definitions and laws of rules, the exact edges of the steps, and form for the
// bytes of calls; guarantee carries it to the bytes.
#![tactic(auto)]

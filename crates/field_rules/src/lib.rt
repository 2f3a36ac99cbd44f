// The rules of one peer for the field, document 02's office box: what it holds, what comes to it, what it answers, does
// and sends, and the bytes of all that comes and goes.
// No function stands here. It uses the words of rules, and form for the thirteen bytes of a step.
#![tactic(auto)]

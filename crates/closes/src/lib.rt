// Closes that are computed on bytes: two peers and four, with calls of another period between; and what comes of calls
// that lack a part of what a close asks.
// No function stands here. It uses the definitions and laws of liveness and guarantee; nothing uses it.
#![tactic(auto)]

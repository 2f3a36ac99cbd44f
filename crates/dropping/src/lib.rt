// Dropping steps (document 02, P7): which steps of a rehearsal are left when each is dropped without which the last
// answer stays the same number, and what is promised of them, for any engine.
// No function stands here. It uses rules for engines and runs of calls, and figures for counting.
#![tactic(auto)]

// What is promised of the bag, of the bytes and of a report's lines: clears change no later answer, the bag never gains
// more than the gain of the calls, and full is answered only with 256 entries.
// It uses cleared_runs and growth, which say it of every engine that follows the rules, and guarantee for the engine on
// bytes; it has no code.
#![tactic(auto)]

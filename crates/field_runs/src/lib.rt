// The field peer beside a run of the rehearsal: what the run passes to peer j and what j sends, and that the field peer
// that is fed with it is, step for step, the peer of the rehearsal, by every engine that follows the rules.
// No function stands here. It uses field_rules for the field peer, edges and growth for when a step answers 13.
#![tactic(auto)]

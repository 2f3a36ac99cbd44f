// Cases of documents 01 and 02, proved about the definitions: the marked edges, further edges of table and steps,
// worked runs, the least thresholds beside their rule, what the seasons of a table and its weights change and leave,
// tables that meet demand 3's premise.
// No function stands here. It uses the definitions and laws of rules and of the table (header, pairs, ballot, clash);
// guarantee carries worked runs of it to the bytes.
#![tactic(auto)]

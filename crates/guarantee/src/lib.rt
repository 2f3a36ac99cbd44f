// Demand 3, that no item has receipts in two periods, when a board comes, what a sheet shows, the totals of a report
// and what a step does on tables of older seasons, about the very definitions that the promises of `engine`,
// `rehearsal` and `hall` cite; all of it of weights, with what follows where peers are counted.
// Nothing runs here. It uses the laws of rules, engine, rehearsal and hall, liveness for the close of a period, the
// worked runs of edges, and reading for the lines of a report; closes computes with it.
#![tactic(auto)]

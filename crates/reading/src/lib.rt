// A report read back from its bytes: its lines, the receipts that they show, and the items that the board lines name.
// Nothing runs here. It uses the definitions and laws of report, text and figures.
#![tactic(auto)]

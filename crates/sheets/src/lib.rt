// Definitions and one proof alone (specs/): the sixteen sheets of document 01, those of the second call (document 02, slip 4), and
// those of open ends in either call (slip 5).
#![tactic(auto)]

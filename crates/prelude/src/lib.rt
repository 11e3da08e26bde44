// Definitions and laws alone (specs/): choosing by a test, tests joined, a test over a whole list or table, texts as bytes.
#![tactic(auto)]

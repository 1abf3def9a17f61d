// Definitions and laws on tests, lists and rows that every other crate cites. There is no code here.
#![tactic(auto)]

// Document 01's table of cases, one theorem over its rows (specs/Table.antt), and computed runs (specs/Runs.antt). There is no code here.
#![tactic(auto)]

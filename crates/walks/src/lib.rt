// Walking a table, as definitions and laws: there is no code here.
#![tactic(auto)]

// A text of lines, whatever its lines are, as definitions and laws; no code.
#![tactic(auto)]

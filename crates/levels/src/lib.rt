// The layout by levels, as a definition and laws: there is no code here.
#![tactic(auto)]

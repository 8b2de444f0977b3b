// Document 01's first layout, with chains of siblings, as a definition with its theorem: there is no code here.
#![tactic(auto)]

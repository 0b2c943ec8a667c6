// Evenings: what holds in every run of a hall, over the outcomes of all its calls.
#![tactic(auto)]

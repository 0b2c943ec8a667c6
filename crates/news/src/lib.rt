// News: what is heard new adds to what a hall has recorded, and there is a most that it can record.
#![tactic(auto)]

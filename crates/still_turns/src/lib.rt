// Still turns: after every call of a replica that has offered no step is left, so looking changes nothing.
#![tactic(auto)]

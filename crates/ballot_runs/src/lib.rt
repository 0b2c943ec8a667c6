// Ballots over runs of small steps: what holds in every run, under every rule that keeps its laws.
#![tactic(auto)]

// Turns of ballots: what each call of a replica does to its ballots and its coin, as small steps.
#![tactic(auto)]

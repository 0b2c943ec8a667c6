// Sheet turns: what the calls of a replica do to its sheets, what hear answers, and what close finds.
#![tactic(auto)]

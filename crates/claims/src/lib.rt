// What holds of every evening, proved over the outcomes of the calls.
#![tactic(auto)]

// An evening in which all honest replicas close: the claims on evenings speak of something.
#![tactic(auto)]

// A record has one form in numbers: proofs only.
#![tactic(auto)]

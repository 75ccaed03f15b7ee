// Laws that all other crates cite: intervals, integers as differences of naturals, computed tests. They are in specs/ and proofs/;
// there is no code.
#![tactic(auto)]

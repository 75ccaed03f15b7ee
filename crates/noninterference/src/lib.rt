// Demand 3: no list of calls lets a pixel's colour reach another that never read it. The claim is in specs/, its proof in
// proofs/; there is no code.
#![tactic(auto)]

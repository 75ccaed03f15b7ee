// The worked examples of the specification, as theorems about the definitions. They are in specs/; there is no code.
#![tactic(auto)]

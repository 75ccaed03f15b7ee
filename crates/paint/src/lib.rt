// What a call does to the memories and to colour marks, and what stays alike by it. There is no code.
#![tactic(auto)]

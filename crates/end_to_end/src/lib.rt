// No colour reaches a pixel that never read it, for what callers hold and call: lists of calls through `perform` and through
// the C function, and from open to a saved screen. The statements are in specs/, their proofs in proofs/; there is no code.
#![tactic(auto)]

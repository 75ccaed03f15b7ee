// A device, a call on it, and lists of calls: what every theorem over lists of calls is about. The definitions are in specs/, their
// laws in proofs/; there is no code.
#![tactic(auto)]

// The Higman-Thompson groups G(n,r) as sort plans need them: definitions in specs/, theorems in proofs/. There is no code here.
// Read specs/ first, in the order of specs/Lib.antt.
#![tactic(auto)]

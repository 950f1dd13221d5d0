// The reduction of a matrix over Z/2 by slots, as functions on chains: definitions in specs/, theorems in proofs/, no code.
#![tactic(auto)]

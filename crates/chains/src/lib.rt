// The mathematics of chains over Z/2: definitions in specs/, theorems in specs/ and proofs/, no code.
#![tactic(auto)]

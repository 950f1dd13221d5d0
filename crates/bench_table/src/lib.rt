// The bench jobs P1 to P12 of document 01, from bytes to bytes: the jobs in specs/, their proof in proofs/, no code.
#![tactic(auto)]

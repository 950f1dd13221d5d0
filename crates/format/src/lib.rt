// The job file, the answer record and the promises of the two calls as functions on byte lists: definitions in specs/,
// theorems in specs/ and proofs/, no code.
#![tactic(auto)]

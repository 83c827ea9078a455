// The index of the bind table (document 02, request 3), as definitions and theorems: see specs/ and proofs/. There is no function here.

#![tactic(auto)]

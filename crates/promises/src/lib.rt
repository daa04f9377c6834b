// Theorems over the rules: no code. What is promised stands in specs/ and proofs/; proofs/Promises.antt is read first.
#![tactic(auto)]

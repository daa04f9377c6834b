// Theorems over the pin table's rules: no code. What is promised stands in specs/, where Promises.antt is read first, and in proofs/.
#![tactic(auto)]

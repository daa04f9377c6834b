// What follows of pin tables from their definitions: no code, only the laws in specs/.
#![tactic(auto)]

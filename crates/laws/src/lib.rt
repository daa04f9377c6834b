// Mathematics that the kit lacks: no code, only the laws in specs/.
#![tactic(auto)]

// What follows of texts, decimals and rasters from their definitions: no code, only the laws in specs/.
#![tactic(auto)]

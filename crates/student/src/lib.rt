// What a quantile is, and that each entry of the t table and each z score is one. Nothing runs here: the definitions and theorems are in specs/.
#![tactic(auto)]

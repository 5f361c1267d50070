// Theorems of the numbers chosen for a plan, about the definitions alone.
#![tactic(auto)]

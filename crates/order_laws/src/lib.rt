// Theorems of the order that is proposed for a guest's tasks, about the definitions alone.
#![tactic(auto)]

// Theorems of plans whose Deferrable guests are made Periodic, about the definitions alone.
#![tactic(auto)]

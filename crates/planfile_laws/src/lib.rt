// Theorems of plan files, about the definitions alone: a plan's file is read back, and no other bytes read as it.
#![tactic(auto)]

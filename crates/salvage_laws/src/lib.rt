// Theorems of salvaged files, about the definitions alone: what is written reads as a plan of the kept blocks, and why
// each block is kept or dropped.
#![tactic(auto)]

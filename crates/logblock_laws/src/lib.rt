// Theorems of log blocks, about the definitions alone: what is written is read back, only what is written passes, and
// where its numbers stand in bytes.
#![tactic(auto)]

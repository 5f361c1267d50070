// Theorems of statements, about the definitions alone: what a statement says of the jobs that were counted, that a log
// may be cut between blocks, that refusal 14 is never met by our own statements, and what a tenant may read off it.
#![tactic(auto)]

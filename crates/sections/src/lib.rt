// The runner of guarded sections; specs/ says what it does, proofs/ that its result is that of the plain run.
#![tactic(auto)]

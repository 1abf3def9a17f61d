// The history of a run of calls, and what is read off it: grants, releases, and waiters served in turn. There is no code here.
#![tactic(auto)]

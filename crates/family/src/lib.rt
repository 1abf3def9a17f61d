// The ITRON calls as one family: runs of them among the manager's own calls, and what holds of every one. There is no code here.
#![tactic(auto)]

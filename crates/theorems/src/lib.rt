// The theorems that matter, restated in one place: proofs/Theorems.antt, with StateFile.antt, Search.antt, Itron.antt and Accounts.antt beside it. There is no code here.
#![tactic(auto)]

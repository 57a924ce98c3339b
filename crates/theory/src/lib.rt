// The theorems over the rules stand in specs/, and in proofs/ those that rest on a statement which a wrong version makes false.
#![tactic(auto)]

// The list of the calls for C: what each is handed, its conditions and what it leaves, and the theorems about them,
// stated in specs/ and proved in proofs/. There is no code here: that is in `wimtaze`.
#![tactic(auto)]

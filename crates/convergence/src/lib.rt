// The theorems about the rules of `woot` and `bulk`: stated in specs/, proved in proofs/. There is no code here.
#![tactic(auto)]

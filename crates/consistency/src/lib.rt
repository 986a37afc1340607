// Demand 3 over every kind of call there is: stated in specs/, proved in proofs/. There is no code here.
#![tactic(auto)]

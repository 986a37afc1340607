// Plain lists, on which every definition is written: tests and choices, and a list in an array. There is no code here.
#![tactic(auto)]

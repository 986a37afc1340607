// The rules of calls that take many operations or a whole replica at once: pasting a block, building of a heap, loading
// for use, catching up, archiving; what a list of calls starts from, and what two documents have in common. They are in
// specs/, over those of `woot` for one operation at a time. There is no code here.
#![tactic(auto)]

// The definitions of document 01 stand in specs/, their first laws in proofs/. There is no code here.
#![tactic(auto)]

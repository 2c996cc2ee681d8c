// What any sequence of commands leaves: the definitions stand in specs/, the theorem in proofs/. There is no code here.
#![tactic(auto)]

// Products given by rows: what they are, which refusals they have, and the sheet that each becomes (document 02, request 1).
#![tactic(auto)]

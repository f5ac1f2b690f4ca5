// An execution given by columns: what its columns are, which refusals there are, and the sheet that is written (document 02, request 3).
#![tactic(auto)]

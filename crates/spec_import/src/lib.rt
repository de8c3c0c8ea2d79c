// Theory only: the definitions of numberings from other mesh tools (document 02, A.5) stand in specs/.
#![tactic(auto)]

// Theory only: the claim of the request, and those of document 02 beside it, stand in specs/.
#![tactic(auto)]

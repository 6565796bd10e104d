// No code: document 01 stands in specs/ as definitions, which contracts and laws cite, and proofs/ computes jobs with them.
#![tactic(auto)]

// No code: the recovery claim of document 01 stands in specs/.

#![tactic(auto)]

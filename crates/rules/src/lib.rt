// No code: the specification of document 01 stands in specs/.

#![tactic(auto)]

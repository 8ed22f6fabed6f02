// No code: request (m) of document 02 stands in specs/.

#![tactic(auto)]

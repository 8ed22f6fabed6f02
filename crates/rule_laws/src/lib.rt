// No code: laws about the specification stand in specs/.

#![tactic(auto)]

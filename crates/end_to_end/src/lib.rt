// No code: the recovery claim at the printed page, and with keepers, stands in specs/.

#![tactic(auto)]

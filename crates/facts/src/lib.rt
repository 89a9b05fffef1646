#![tactic(auto)]

// No code: what holds of every net that reading accepts stands in specs/.

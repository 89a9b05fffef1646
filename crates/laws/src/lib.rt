#![tactic(auto)]

// No code: the definitions and laws that belong to no rule stand in specs/.

#![tactic(auto)]

// No code: the theory of the search stands in specs/.

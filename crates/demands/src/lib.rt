#![tactic(auto)]

// No code: what planning promises, in the words of document 01, stands in specs/.

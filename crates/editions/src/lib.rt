#![tactic(auto)]

// No code: that a file of the first edition answers as before vias stands in specs/.

#![tactic(auto)]

// No code: that reading needs only the front of its input stands in specs/.

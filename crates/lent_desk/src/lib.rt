// The laws by which the open calls over a lent desk are proved (02, wish 8; 01, Which places take which form: "desk struct lent by &mut; few thin calls over
// covered functions"): what a call over a lent record answers and leaves, by what a function on the record's value gives. No code: proofs/ has the laws. `Said`
// has them over plain values, as the calls' answers cite them; the other files have them of the machine's code.
#![tactic(auto)]

// No code: laws over all the crates at once, in proofs/. What the user asked for, joined from what each crate promises.
#![tactic(auto)]

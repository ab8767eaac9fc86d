// Truth values and lists: definitions and laws that the crates above share and the kit's libraries lack. No code.
#![tactic(auto)]

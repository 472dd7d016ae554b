// No code: what the definitions of every crate above say by cases, and how they spell numbers. See specs/.
#![tactic(auto)]

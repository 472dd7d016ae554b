// No code: what a message leaves in a register that it is put through bit by bit (document 02, §11). specs/ says what is meant, proofs/Laws
// has the theorem.
#![tactic(auto)]

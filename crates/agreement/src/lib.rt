// That the frame's step refines the definition's: specs/ has the simulation relation in which the two agree, proofs/ that they do.
#![tactic(auto)]

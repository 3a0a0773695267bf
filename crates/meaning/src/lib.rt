// What a stream of bytes means, from docs/RULES.md: specs/ has the definition, proofs/ its laws and examples. No code.
#![tactic(auto)]

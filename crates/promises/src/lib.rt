// What callers may rely on, over everything that is public: proofs/ has it. No code.
#![tactic(auto)]

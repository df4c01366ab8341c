// The theorems about converted shows, and the laws that the converter rests on. No code: specs and proofs only.
#![tactic(auto)]

// What the seven shifts and rotates do to their destination and the carry. No code: specs and proofs only.
#![tactic(auto)]

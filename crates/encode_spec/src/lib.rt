// What a record means and what encode answers to it. Definitions and theorems only: no code.
#![tactic(auto)]

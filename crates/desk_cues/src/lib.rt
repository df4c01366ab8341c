// What a designer may rely on: a compiled list of cues runs to its end (REFERENCE 15). Definitions and theorems only: no code.
#![tactic(auto)]

// Numbers that bits spell, and numbers as bytes. This floor has meanings and laws and no code of its own.
#![tactic(auto)]

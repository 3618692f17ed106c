// What the rules say of all the bits that came. This floor has meanings and laws and no code of its own.
#![tactic(auto)]

// The three demands and the P lines, stated as claims over the floors below. There is no code of its own here.
#![tactic(auto)]

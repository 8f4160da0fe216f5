// The law of the programs `write` and `list`: what the one prints, the other turns into the same table. There is no code.
#![tactic(auto)]

// The third demand: theorems over the definitions of all the calls. No code.
#![tactic(auto)]

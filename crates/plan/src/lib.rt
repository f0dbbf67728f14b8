// Nets, plans, done sets, cuts and compact tokenflows: the definitions that every promise rests on, in specs/. No code.
#![tactic(auto)]

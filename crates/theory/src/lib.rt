// The theory of done sets, cuts and compact tokenflows: theorems about the definitions of the crate `plan`, in specs/. No code.
#![tactic(auto)]

//! What it means that a template of Booth and Lueker (1976) stands at a node of an arena, and what stands there once it
//! was applied: the definitions and lemmas that the templates in place share. The crate has no running code.
#![tactic(auto)]

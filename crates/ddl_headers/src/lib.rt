//! The headers of the declarations of a group, and what is wrong with what is written: definitions.
#![tactic(auto)]

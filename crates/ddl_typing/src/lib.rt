//! The typing of declarations: definitions.
#![tactic(auto)]

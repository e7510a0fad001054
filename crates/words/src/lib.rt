//! Numbers of two and four bytes as SSP 2.1 sends them, lowest byte first: the order of `to_le_bytes` and `from_le_bytes`.
#![tactic(auto)]

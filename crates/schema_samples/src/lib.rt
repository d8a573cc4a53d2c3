//! Samples of the definitions of schemas, rows, queries and rules.
#![tactic(auto)]

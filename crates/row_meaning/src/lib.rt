//! What rows, queries and rules mean, as definitions: what a store answers, which rows a query means, who may see a row, when a rule holds.
#![tactic(auto)]

//! What a request does on a tape of answers and comes to on a store, as definitions (docs/platform.md, "Trails").
#![tactic(auto)]

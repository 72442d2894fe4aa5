//! What a report says, as definitions alone: its words, the texts of values and events, and the items of its sinks.
#![tactic(auto)]

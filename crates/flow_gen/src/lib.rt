//! The document that is generated for a number, its text, and the summary of its run.
#![tactic(auto)]

mod document;
mod summaries;
mod text;

pub use document::generated;
pub use summaries::summary;
pub use text::generated_text;

//! Obeying the lines of a recording: an input is cut into lines as it comes, and each is handed to what obeys it.
#![tactic(auto)]

pub mod feeding;
pub mod obey;
pub mod texts;

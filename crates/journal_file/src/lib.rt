//! A journal as a text: the line of each event, and the file to which the lines go.
#![tactic(auto)]

mod event;
mod file;
mod makers;
mod patterns;
mod preds;
mod terms;
#[cfg(test)]
mod tests;
mod words;

pub use event::event_text;
pub use file::FileTrace;

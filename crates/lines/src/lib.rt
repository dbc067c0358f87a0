// The lines of a stored list of calls (compare/replay/README.md has their form): the word that each begins with, those that prepare a call, and the status of
// an answer.
#![tactic(auto)]

pub mod answers;
pub mod prepare;
pub mod words;

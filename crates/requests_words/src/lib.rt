// Requests to the test driver for words, texts, exception lists and vocabularies: each reads its arguments, makes the call, writes the
// answer, and says whether the request was whole.
#![tactic(auto)]

pub mod list;
mod spaces;
pub mod text;
pub mod vocabulary;
pub mod word;

//! What a person is told beside a refusal's line, which is for programs: a sentence, made in one place from the refusal and the words.
#![tactic(auto)]

mod advice;
mod advised_words;
mod kinds;
mod line_key;
mod one_word;

pub use advice::Advice;
pub use line_key::key_at;
pub use one_word::OneWord;

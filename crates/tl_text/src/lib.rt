//! Lines, fields, numbers, quoted words and short texts: the small readers that every other reader stands on.
#![tactic(auto)]

mod number;
mod span;
mod text;
mod words;

pub use number::{NumberError, decimal_u32, decimal_u64};
pub use span::Span;
pub use text::{Text, TextError};
pub use words::{QuoteError, fields, lines, quoted_words};

//! What the words of a command line ask for.
#![tactic(auto)]

mod composition;
mod form;
mod law;
mod names;
mod number;
mod order;
mod reading;
mod request;

pub use cal_args::WordsFault;
pub use law::plain_words_say;
pub use order::Order;
pub use reading::read_words;
pub use request::{CheckRequest, PathRequest, Request, TableRequest};

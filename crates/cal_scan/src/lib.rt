//! The bytes, words, names and whole numbers of any text: a command line, a report or a database.
#![tactic(auto)]

mod byte;
mod constituent;
mod copies;
mod cuts;
mod digits;
mod distinct;
mod front_token;
mod fronts;
mod name;
mod name_list;
mod words;

pub use byte::{
    COLON, COMMA, EQUALS, LINE_FEED, MINUS, PLUS, POINT, SPACE, UNDERSCORE, ZERO, is_digit_byte,
    is_letter_byte, may_stand_in_name,
};
pub use constituent::{is_constituent, is_element_name, is_letters};
pub use copies::{with_byte, without_spaces};
pub use cuts::{cut_at, parts_at};
pub use digits::{all_digits, capped_value, digits_at, is_whole_number, whole};
pub use front_token::split_token;
pub use fronts::{behind_spaces, name_bytes_at};
pub use name::Name;
pub use name_list::names;
pub use words::{before, behind, is_name_word, is_word, tokens};

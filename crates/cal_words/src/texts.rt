/// The text of each variant of an enum.
macro_rules! text_of {
    ($value:expr, $names:ident { $($variant:ident: $text:literal,)* }) => {
        match $value {
            $($names::$variant => $text,)*
        }
    };
}

pub(crate) use text_of;

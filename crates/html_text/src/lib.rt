//! Texts, numbers and elements of HTML, put on a page in front of a sink, where a failure is kept and told at the end.
#![tactic(auto)]

mod escaped;
mod laws;
mod pen;
mod tags;

pub use escaped::{Awaited, put_escaped};
pub use laws::text_is_safe;
pub use pen::{Pen, finish, new_pen, put, put_text, put_three};
pub use tags::{
    put_decimal, put_hex, put_inline, put_link_begin, put_link_end, put_number, put_padded,
    put_paragraph, put_place, put_small, put_title,
};

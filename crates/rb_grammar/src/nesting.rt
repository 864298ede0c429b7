/// What a token does to the brackets that are open.
#[derive(Clone, Copy, Debug, PartialEq, Eq)]
pub enum Nesting {
    Opens,
    Closes,
    Neither,
}

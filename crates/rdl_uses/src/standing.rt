//! Where an instance stands.

/// Where an instance stands: how many names its path has with its own, the top's among them, and how many bytes the text of its
/// path has before its own name, a `$` included.
#[derive(Clone, Copy, Debug)]
pub struct Standing {
    pub depth: u8,
    pub prefix: u16,
}

use crate::text::Text;

/// The side of a port, seen from inside the module.
#[derive(Clone, Copy, Debug, PartialEq, Eq)]
pub enum Dir {
    In,
    Out,
}

/// A port of a module, with its width in bits (1 to 128).
#[derive(Drop)]
pub struct Port {
    pub dir: Dir,
    pub name: Text,
    pub width: u8,
}

/// A net that a run reads or gives, with its width in bits (1 to 128).
#[derive(Drop)]
pub struct Pin {
    pub name: Text,
    pub width: u8,
}

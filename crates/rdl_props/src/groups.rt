//! Groups of properties that exclude one another.

/// A group: in one layer at most one of its properties is assigned to a component, and one that is assigned unsets the
/// others.
#[derive(Clone, Copy, Debug, PartialEq, Eq)]
pub enum Group {
    /// `sync` and `async`.
    Synchrony,
    /// `activehigh` and `activelow`.
    Activity,
    /// `onwrite`, `woset` and `woclr`.
    OnWrite,
    /// `onread`, `rclr` and `rset`.
    OnRead,
    /// `swwe` and `swwel`.
    SwEnable,
    /// `we` and `wel`.
    HwEnable,
    /// `hwenable` and `hwmask`.
    HwMask,
    /// `incrvalue` and `incrwidth`.
    Incr,
    /// `decrvalue` and `decrwidth`.
    Decr,
    /// `sticky` and `stickybit`.
    Stickiness,
    /// `enable` and `mask`.
    Enable,
    /// `haltenable` and `haltmask`.
    HaltEnable,
}

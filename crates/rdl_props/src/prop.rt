//! The properties and their names.
ghost use Rattle.std.specs.Prelude.{◌≡◌};

/// A property of SystemRDL 2.0, with the clause that defines it.
#[derive(Clone, Copy, Debug, PartialEq, Eq)]
pub enum Prop {
    /// A short name of the component (5.2.1).
    Name,
    /// A description of the component (5.2.1).
    Desc,
    /// Not to be tested; without effect (5.2.2).
    DontTest,
    /// Not to be compared with what was expected; without effect (5.2.2).
    DontCompare,
    /// Where children without an address are placed (13.4).
    Addressing,
    /// Bit 0 is the least significant (13.4).
    Lsb0,
    /// Low bytes stand at low addresses (13.4).
    Littleendian,
    /// The bits of the register (10.6).
    Regwidth,
    /// The bits of one software access (10.6).
    Accesswidth,
    /// The bits of the signal (8.2).
    Signalwidth,
    /// As a reset, the signal is synchronous (8.2).
    Sync,
    /// As a reset, the signal is asynchronous (8.2).
    Async,
    /// As a reset, the signal is asserted at 1 (8.2).
    Activehigh,
    /// As a reset, the signal is asserted at 0 (8.2).
    Activelow,
    /// The reset of all fields below that name no other (8.2).
    FieldReset,
    /// The bits of the field (9.7).
    Fieldwidth,
    /// Software access (9.4).
    Sw,
    /// Hardware access (9.4).
    Hw,
    /// The reset value (9.5).
    Reset,
    /// The reset of the field (9.5).
    Resetsignal,
    /// What a software write makes of the field (9.6).
    Onwrite,
    /// A written 1 sets its bit: `onwrite = woset` (9.6).
    Woset,
    /// A written 1 clears its bit: `onwrite = woclr` (9.6).
    Woclr,
    /// What a software read makes of the field (9.6).
    Onread,
    /// A read clears the field: `onread = rclr` (9.6).
    Rclr,
    /// A read sets the field: `onread = rset` (9.6).
    Rset,
    /// Software write enable, active high (9.6).
    Swwe,
    /// Software write enable, active low (9.6).
    Swwel,
    /// Hardware write enable, active high (9.7).
    We,
    /// Hardware write enable, active low (9.7).
    Wel,
    /// What hardware loads, in place of the input (9.5).
    Next,
    /// Hardware sets all bits (9.7).
    Hwset,
    /// Hardware clears all bits (9.7).
    Hwclr,
    /// The bits that hardware may change (9.7).
    Hwenable,
    /// The bits that hardware may not change (9.7).
    Hwmask,
    /// An output: all bits are 1 (9.7).
    Anded,
    /// An output: some bit is 1 (9.7).
    Ored,
    /// An output: the parity of the bits (9.7).
    Xored,
    /// An output: a software access that may change the field (9.6).
    Swmod,
    /// An output: a software access of the field (9.6).
    Swacc,
    /// The field is 1 for one clock cycle after it is written (9.6).
    Singlepulse,
    /// Who wins where software and hardware write at one edge (9.10).
    Precedence,
    /// The field counts (9.8).
    Counter,
    /// An output: the counter wraps at its upper end (9.8).
    Overflow,
    /// An output: the counter wraps at its lower end (9.8).
    Underflow,
    /// When the counter counts up (9.8).
    Incr,
    /// When the counter counts down (9.8).
    Decr,
    /// By how much it counts up (9.8).
    Incrvalue,
    /// The bits of the input that tells by how much it counts up (9.8).
    Incrwidth,
    /// By how much it counts down (9.8).
    Decrvalue,
    /// The bits of the input that tells by how much it counts down (9.8).
    Decrwidth,
    /// The number at which it stops to count up, `saturate` for short (9.8.2).
    Incrsaturate,
    /// The number at which it stops to count down (9.8.2).
    Decrsaturate,
    /// An output: the counter is at this number or above, `threshold` for short (9.8.2).
    Incrthreshold,
    /// An output: the counter is at this number or below (9.8.2).
    Decrthreshold,
    /// The field is an interrupt, by its level or by an edge (9.9).
    Intr,
    /// An interrupt's first event is held for the whole field (9.9).
    Sticky,
    /// An interrupt's events are held bit by bit (9.9).
    Stickybit,
    /// The bits that raise the register's interrupt (9.9).
    Enable,
    /// The bits that don't raise the register's interrupt (9.9).
    Mask,
    /// The bits that raise the register's halt (9.9).
    Haltenable,
    /// The bits that don't raise the register's halt (9.9).
    Haltmask,
    /// The enumeration that names the field's values (9.10).
    Encode,
}

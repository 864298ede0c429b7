//! The pins of a bus.

use rtl_net::Id;

/// The nodes of an APB slave's pins (IHI 0024B, 4.1): PRESETn, PSEL, PENABLE and PWRITE of one bit, PADDR and PWDATA of 32.
#[derive(Clone, Copy)]
pub struct BusPins {
    pub resetn: Id,
    pub address: Id,
    pub select: Id,
    pub enable: Id,
    pub write: Id,
    pub data_in: Id,
}

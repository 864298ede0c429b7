//! The registers and the outputs of the port, in order.

ghost use Rattle.std.specs.Prelude.{◌≡◌, map};
ghost use Rattle.gen_ports.specs.Registers.{pin_of};
ghost use Rattle.axi_lite.specs.Tables.{own_outputs, own_registers};

use gen_ports::BusPin;

/// The port's registers but for that of the read data: what is kept of its channels.
pub(crate) fn register_table() -> &'static [BusPin]
    ensures { map pin_of result.now ≡ own_registers }
{
    &[
        BusPin {
            name: b"axi$aw",
            width: 1,
        },
        BusPin {
            name: b"axi$awaddr",
            width: 32,
        },
        BusPin {
            name: b"axi$w",
            width: 1,
        },
        BusPin {
            name: b"axi$wdata",
            width: 32,
        },
        BusPin {
            name: b"axi$wstrb",
            width: 4,
        },
        BusPin {
            name: b"axi$b",
            width: 1,
        },
        BusPin {
            name: b"axi$bresp",
            width: 2,
        },
        BusPin {
            name: b"axi$r",
            width: 1,
        },
        BusPin {
            name: b"axi$rresp",
            width: 2,
        },
    ]
}

/// The port's outputs, in port order.
pub(crate) fn output_table() -> &'static [BusPin]
    ensures { map pin_of result.now ≡ own_outputs }
{
    &[
        BusPin {
            name: b"AWREADY",
            width: 1,
        },
        BusPin {
            name: b"WREADY",
            width: 1,
        },
        BusPin {
            name: b"BRESP",
            width: 2,
        },
        BusPin {
            name: b"BVALID",
            width: 1,
        },
        BusPin {
            name: b"ARREADY",
            width: 1,
        },
        BusPin {
            name: b"RDATA",
            width: 32,
        },
        BusPin {
            name: b"RRESP",
            width: 2,
        },
        BusPin {
            name: b"RVALID",
            width: 1,
        },
    ]
}

//! The bus protocol (IHI 0024B), and the first row of a table that breaks it.

ghost use Rattle.std.specs.Prelude.{◌≡◌, ◌≤◌, ◌<◌, None, IfSome, [], length, map, slice_index_or};
ghost use Rattle.std.specs.List.{AllByRecursion};
ghost use Rattle.rb_model.specs.Protocol as protocol;
ghost use Rattle.rb_model.specs.Protocol.{KeepsProtocol};
ghost use Rattle.stim_csv.specs.Buses.{HasBus, IsFirstBreak, bus_first};
ghost use Rattle.stim_csv.specs.Watch.{bus_seen, phase_seen};
ghost use Rattle.stim_csv.specs.Watch as watched;

use crate::stimulus::Stimulus;

/// The numbers at the bus's input pins.
#[derive(Clone, Copy)]
struct Bus {
    resetn: u128,
    address: u128,
    select: u128,
    enable: u128,
    write: u128,
    data_in: u128,
}

/// The operating states of the standard. `Wait` is the first vector of an access that has a wait state.
#[derive(Clone, Copy)]
enum Phase {
    Idle,
    Setup,
    Wait,
    Access,
}

/// The bus before the first vector.
fn idle() -> Bus
    ensures { bus_seen result ≡ protocol.idle }
{
    Bus {
        resetn: 1,
        address: 0,
        select: 0,
        enable: 0,
        write: 0,
        data_in: 0,
    }
}

/// The bus at a row, whose first six numbers are its pins.
fn bus_at(table: &Stimulus, row: u64) -> Bus
    requires row { row < length table.now }
    requires bus { HasBus (slice_index_or table.now row []) }
    ensures { bus_seen result ≡ bus_first (slice_index_or table.now row []) }
{
    Bus {
        resetn: table.number(row, 0),
        address: table.number(row, 1),
        select: table.number(row, 2),
        enable: table.number(row, 3),
        write: table.number(row, 4),
        data_in: table.number(row, 5),
    }
}

fn is_setup(phase: Phase) -> bool
    ensures { result ≡ watched.is_setup (phase_seen phase) }
{
    match phase {
        Phase::Setup => true,
        Phase::Idle | Phase::Wait | Phase::Access => false,
    }
}

fn is_wait(phase: Phase) -> bool
    ensures { result ≡ protocol.is_wait (phase_seen phase) }
{
    match phase {
        Phase::Wait => true,
        Phase::Idle | Phase::Setup | Phase::Access => false,
    }
}

/// The phase of a vector, behind a vector of another.
fn phase_after(waits: u8, last: Phase, now: &Bus) -> Phase
    ensures { phase_seen result ≡ protocol.phase_after waits (phase_seen last) (bus_seen now.now) }
{
    if now.resetn == 0 || now.select == 0 {
        Phase::Idle
    } else if now.enable == 0 {
        Phase::Setup
    } else if waits == 1 && !is_wait(last) {
        Phase::Wait
    } else {
        Phase::Access
    }
}

/// Whether a transfer has begun and isn't over.
fn is_under_way(phase: Phase) -> bool
    ensures { result ≡ watched.is_under_way (phase_seen phase) }
{
    is_setup(phase) || is_wait(phase)
}

/// Whether the pins are those of the vector before, data only where it is written.
fn are_held(before: &Bus, now: &Bus) -> bool
    ensures { result ≡ watched.are_held (bus_seen before.now) (bus_seen now.now) }
{
    let written = now.write != 1 || now.data_in == before.data_in;
    now.address == before.address && now.write == before.write && written
}

/// Whether an access may be completed behind a vector of this phase.
fn may_complete(waits: u8, last: Phase) -> bool
    ensures { result ≡ watched.may_complete waits (phase_seen last) }
{
    if waits == 1 {
        is_wait(last)
    } else {
        is_setup(last)
    }
}

/// Whether a vector of this phase is kept, behind that of the phase `last` and of the bus `before`.
fn is_kept(phase: Phase, waits: u8, last: Phase, before: &Bus, now: &Bus) -> bool
    ensures { result ≡ watched.is_kept (phase_seen phase) waits (phase_seen last) (bus_seen before.now) (bus_seen now.now) }
{
    match phase {
        Phase::Idle => {
            if now.resetn == 0 {
                now.select == 0
            } else {
                !is_under_way(last)
            }
        }
        Phase::Setup => !is_under_way(last),
        Phase::Wait => is_setup(last) && are_held(before, now),
        Phase::Access => may_complete(waits, last) && are_held(before, now),
    }
}

impl Stimulus {
    /// The first row that breaks the bus protocol (IHI 0024B) with so many wait states, if there is one.
    ///
    /// The first six pins are the bus's, in port order: PRESETn, PADDR, PSEL, PENABLE, PWRITE and PWDATA. It takes time in
    /// proportion to the rows, and no memory.
    pub fn protocol(&self, waits: u8) -> Option<u64>
        requires { AllByRecursion HasBus self.now }
        ensures kept { result ≡ None → KeepsProtocol waits (map bus_first self.now) }
        ensures broken { IfSome result (IsFirstBreak waits (map bus_first self.now)) }
    {
        let mut last = Phase::Idle;
        let mut before = idle();
        for row in 0..self.rows() {
            let now = bus_at(self, row);
            let phase = phase_after(waits, last, &now);
            if !is_kept(phase, waits, last, &before, &now) {
                return Some(row);
            }
            last = phase;
            before = now;
        }
        None
    }
}

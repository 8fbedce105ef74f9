// The steps of a message: it is judged and received, its delta is read, and the store takes the delta.
ghost use Rattle.std.specs.Prelude.{◌≡◌, true, List, [], ℕ, ◌≤◌, ℤ, length, Ok};
ghost use Rattle.std.proofs.Math.Option.{some, none};
ghost use Rattle.definitions.specs.Areas.{cleared};
ghost use Rattle.definitions.specs.Outcome.{return};
ghost use Rattle.definitions.specs.Stream.{stream};
ghost use Rattle.definitions.specs.DeltaReading.{read_delta};
ghost use Rattle.definitions.specs.Deltas.{delta_in, delta_form};
ghost use Rattle.definitions.specs.DeltaCalls.{stored_delta};
ghost use Rattle.definitions.specs.Storage as Store;
ghost use Rattle.definitions.specs.StorageCalls as StorageCalls;
ghost use Rattle.definitions.specs.Manager as Definition;
ghost use Rattle.format.specs.Numbers.{number};
ghost use Rattle.format.specs.Totals.{counts};
ghost use Rattle.format.specs.Answers.{stored_with};
ghost use Rattle.gamenet_snap.specs.Numbers.{numbers};
ghost use Rattle.receiver.specs.States.{receiver_of};
ghost use Rattle.receiver.specs.Answers.{received_with, answered};
ghost use Rattle.store_area.specs.Stores.{holds_in, Holds};
ghost use Rattle.storage.specs.States.{store_of};
ghost use Rattle.storage.specs.Taking.{sum_of, takings};
ghost use Rattle.manager.specs.Answers.{handlings};
ghost use Rattle.manager.specs.Steps.{read_into, handled_by, goes, keeps, Adds, stopping, Brought, laid_out, refusing};

use super::{Handling, Manager};
use delta::checked::read_packed;
use format::{Error, Reading, Warnings};
use gamenet_snap::SnapMsg;
use receiver::{DeltaReceiver, Received, Receiving};
use storage::checked::{Sent, take_judged};
use storage::{Storage, Taking};
use table::checked::nat_at;
use ticks::Tick;

// Passes a message to the receiver.
pub fn receive(
    r: DeltaReceiver,
    m: SnapMsg,
    data: &[u8],
    parts: &mut [u8],
    joined: &mut [u8],
) -> Receiving
    ensures { Definition.receive (receiver_of r) (numbers m) «data».now parts.old joined.old ≡ answered result parts.new joined.new }
{
    match m {
        SnapMsg::Snap {
            tick,
            delta_tick,
            num_parts,
            part,
            crc,
        } => r.snap(tick, delta_tick, num_parts, part, crc, data, parts, joined),
        SnapMsg::SnapEmpty { tick, delta_tick } => r.snap_empty(tick, delta_tick),
        SnapMsg::SnapSingle {
            tick,
            delta_tick,
            crc,
        } => r.snap_single(tick, delta_tick, crc, data, joined),
    }
}

// Writes the empty delta, as the result of reading.
pub fn read_empty(delta: &mut [i32]) -> Reading
    ensures { stored_delta delta.old (return Definition.empty_read) ≡ record { answer = stored_with result.answer (counts result.warnings); out = delta.new } }
{
    let answer = delta::clear(delta);
    Reading {
        answer,
        warnings: Warnings::none(),
    }
}

// Passes the delta that an area holds to the store.
pub fn take(
    s: Storage,
    m: Sent,
    delta: &[i32],
    area: &mut [i32],
    ints: usize,
    scratch: &mut [i32],
) -> Taking
    requires { Holds (store_of s) area.old ints × (delta_form [] delta.now ≡ true) × (16384 ≤ length scratch.old) }
    ensures { StorageCalls.laid_out area.old (Store.add_delta (length area.old) (sum_of m) m.delta_tick.0 m.tick.0 (delta_in [] delta.now) (holds_in (store_of s) area.old)) ≡ takings result area.new }
{
    let deleted = nat_at(delta, 0);
    let updated = nat_at(delta, 1);
    take_judged(s, m, delta, deleted, updated, area, ints, scratch)
}

// The answer for a delta that the store took or refused.
pub fn handled(taken: Result<Tick, Error>) -> Result<Option<Tick>, Error>
    ensures { result ≡ handled_by taken }
{
    Ok(Some(taken?))
}

// The result of a message, with the manager of this receiver and store.
fn told(
    answer: Result<Option<Tick>, Error>,
    warnings: Warnings,
    receiver: DeltaReceiver,
    storage: Storage,
) -> Handling
    ensures { result ≡ record { answer = answer; warnings = warnings; manager = record { receiver = receiver; storage = storage } } }
{
    Handling {
        answer,
        warnings,
        manager: Manager { receiver, storage },
    }
}

// Passes a delta that was read to the store; if reading was refused, the store is unchanged.
pub fn add(
    a: Receiving,
    read: Reading,
    m: Sent,
    s: Storage,
    delta: &[i32],
    area: &mut [i32],
    ints: usize,
    scratch: &mut [i32],
) -> Handling
    requires { Holds (store_of s) area.old ints × (16384 ≤ length scratch.old) × ((n : ℕ) → read.answer ≡ Ok n → delta_form [] delta.now ≡ true) }
    ensures { (StorageCalls.laid_out area.old (goes (length area.old) (counts a.warnings) (sum_of m) m.delta_tick.0 m.tick.0 (holds_in (store_of s) area.old) (read_into read.answer (counts read.warnings) delta.now)) ≡ keeps result area.new) × (receiver_of result.manager.receiver ≡ receiver_of a.receiver) }
{
    match read.answer {
        Err(error) => {
            let all = Warnings::merged(a.warnings, read.warnings, Warnings::none());
            told(Err(error), all, a.receiver, s)
        }
        Ok(_) => {
            let taking = take(s, m, delta, area, ints, scratch);
            let all = Warnings::merged(a.warnings, read.warnings, taking.warnings);
            told(handled(taking.answer), all, a.receiver, taking.storage)
        }
    }
}

// Reads the delta of some bytes and passes it to the store.
pub fn add_bytes(
    a: Receiving,
    m: Sent,
    s: Storage,
    data: &[u8],
    sizes: &[i32],
    delta: &mut [i32],
    area: &mut [i32],
    ints: usize,
    scratch: &mut [i32],
) -> Handling
    requires { Holds (store_of s) area.old ints × (28800 ≤ length scratch.old) × (length «data».now ≤ 28800) }
    ensures { Adds a m s delta.old area.old (read_delta sizes.now (stream «data».now)) result delta.new area.new }
{
    let read = read_packed(data, sizes, delta, scratch);
    add(a, read, m, s, delta, area, ints, scratch)
}

// Passes the empty delta to the store.
pub fn add_empty(
    a: Receiving,
    m: Sent,
    s: Storage,
    delta: &mut [i32],
    area: &mut [i32],
    ints: usize,
    scratch: &mut [i32],
) -> Handling
    requires { Holds (store_of s) area.old ints × (28800 ≤ length scratch.old) }
    ensures { Adds a m s delta.old area.old (return Definition.empty_read) result delta.new area.new }
{
    let read = read_empty(delta);
    add(a, read, m, s, delta, area, ints, scratch)
}

// The result of a message that brings no delta to the store.
pub fn stop(answer: Result<Option<Tick>, Error>, a: Receiving, g: Manager) -> Handling
    ensures { result ≡ stopping answer a g.storage }
{
    told(answer, a.warnings, a.receiver, g.storage)
}

// Passes what was received on to the store, if it is a whole delta.
pub fn settle(
    a: Receiving,
    g: Manager,
    joined: &[u8],
    sizes: &[i32],
    delta: &mut [i32],
    area: &mut [i32],
    ints: usize,
    scratch: &mut [i32],
) -> Handling
    requires { Holds (store_of g.storage) area.old ints × (28800 ≤ length scratch.old) × (28800 ≤ length joined.now) × Brought a }
    ensures { (parts : List ℕ) → laid_out area.old (Definition.after_receiving sizes.now (length area.old) (answered a parts joined.now) (holds_in (store_of g.storage) area.old) delta.old (received_with a.answer (counts a.warnings))) ≡ handlings result parts joined.now delta.new area.new }
{
    let s = g.storage;
    match a.answer {
        Ok(None) => stop(Ok(None), a, g),
        Err(error) => stop(Err(error), a, g),
        Ok(Some(received)) => match received {
            Received::Empty { tick, delta_tick } => {
                let m = Sent {
                    crc: None,
                    delta_tick,
                    tick,
                };
                add_empty(a, m, s, delta, area, ints, scratch)
            }
            Received::Delta {
                tick,
                delta_tick,
                len,
                crc,
            } => {
                let m = Sent {
                    crc: Some(crc),
                    delta_tick,
                    tick,
                };
                let data = &joined[..len];
                add_bytes(a, m, s, data, sizes, delta, area, ints, scratch)
            }
        },
    }
}

// Handles a message for a manager that was judged.
pub fn handle(
    g: Manager,
    m: SnapMsg,
    data: &[u8],
    sizes: &[i32],
    parts: &mut [u8],
    joined: &mut [u8],
    delta: &mut [i32],
    area: &mut [i32],
    ints: usize,
    scratch: &mut [i32],
) -> Handling
    requires { Holds (store_of g.storage) area.old ints × (28800 ≤ length scratch.old) × (28800 ≤ length joined.old) }
    ensures { laid_out area.old (Definition.handle sizes.now (length area.old) (record { receiver = receiver_of g.receiver; storage = holds_in (store_of g.storage) area.old }) (record { numbers = numbers m; bytes = «data».now }) parts.old joined.old delta.old) ≡ handlings result parts.new joined.new delta.new area.new }
{
    let a = receive(g.receiver, m, data, parts, joined);
    settle(a, g, joined, sizes, delta, area, ints, scratch)
}

// The refusal of a call before anything is done.
pub fn refused(g: Manager, error: Error) -> Handling
    ensures { (parts joined : List ℕ) (delta area : List ℤ) → refusing (number error) (receiver_of g.receiver) (store_of g.storage) parts joined delta area ≡ handlings result parts joined delta area }
{
    Handling {
        answer: Err(error),
        warnings: Warnings::none(),
        manager: g,
    }
}

// Judges and handles a message. Leaves scratch in any state.
pub fn judge(
    g: Manager,
    m: SnapMsg,
    data: &[u8],
    sizes: &[i32],
    parts: &mut [u8],
    joined: &mut [u8],
    delta: &mut [i32],
    area: &mut [i32],
    scratch: &mut [i32],
) -> Handling
    ensures { Definition.message_call sizes.now (receiver_of g.receiver) (store_of g.storage) (record { numbers = numbers m; bytes = «data».now }) parts.old joined.old delta.old area.old (length scratch.old) ≡ handlings result parts.new joined.new delta.new area.new }
{
    if !receiver::checked::in_form(g.receiver) {
        return refused(g, Error::NotInForm);
    }
    let Some(ints) = storage::checked::form(g.storage, area) else {
        return refused(g, Error::NotInForm);
    };
    if scratch.len() < DeltaReceiver::AREA_SIZE {
        return refused(g, Error::ScratchTooShort);
    }
    if parts.len() < DeltaReceiver::AREA_SIZE {
        return refused(g, Error::ScratchTooShort);
    }
    if joined.len() < DeltaReceiver::AREA_SIZE {
        return refused(g, Error::ScratchTooShort);
    }
    handle(g, m, data, sizes, parts, joined, delta, area, ints, scratch)
}

// Handles a message; scratch is all zeros afterwards.
pub fn message(
    g: Manager,
    m: SnapMsg,
    data: &[u8],
    sizes: &[i32],
    parts: &mut [u8],
    joined: &mut [u8],
    delta: &mut [i32],
    area: &mut [i32],
    scratch: &mut [i32],
) -> Handling
    ensures { (Definition.message_call sizes.now (receiver_of g.receiver) (store_of g.storage) (record { numbers = numbers m; bytes = «data».now }) parts.old joined.old delta.old area.old (length scratch.old) ≡ handlings result parts.new joined.new delta.new area.new) × (scratch.new ≡ cleared scratch.old) }
{
    let handling = judge(g, m, data, sizes, parts, joined, delta, area, scratch);
    ints::clear(scratch);
    handling
}

// Messages and the receiver as C sees them.
#![tactic(auto)]

ghost use Rattle.std.specs.Prelude.{◌≡◌, [], pos};
ghost use Rattle.definitions.specs.Messages.{num_chunks_call, chunk_call};
ghost use Rattle.definitions.specs.Receiver.{fresh_receiver, snap_call, snap_single_call, snap_empty_call};
ghost use Rattle.receiver.specs.Answers.{received_with};
ghost use Rattle.format.specs.Totals as Totals;
ghost use Rattle.boundary.specs.Boundary.{status, warnings_of, output};
ghost use Rattle.boundary_states.specs.Rows.{ticks_of_receiver, counts_of_receiver, held_receiver};
ghost use Rattle.gamenet_snap.specs.Numbers as gamenet;
ghost use Rattle.capi_receiver.specs.Left.{Rows};
ghost use Rattle.capi_receiver.specs.Held.{ticks_after, counts_after, kind_of, ticks_or, length_or, kind_of_numbers, row_of, kind_of_message, numbers_or, bytes_in};
ghost use Rattle.definitions.specs.Warnings.{Counts};

use boundary::checked::told;
use boundary_states::checked::{load_receiver, load_ticks, write_receiver, write_ticks};
use format::{Error, WARNING_KINDS, row};
use gamenet_snap::SnapMsg;
use receiver::checked::{Part, Ticks, receive};
use receiver::whole::{receive_empty, receive_single};
use receiver::{DeltaReceiver, Received};
use ticks::{Distance, Tick};

// Sets what a message brought, if it was taken; returns the number of the answer.
fn tell(
    a: Result<Option<Received>, Error>,
    kind: &mut u32,
    numbers: &mut [i32; 3],
    len: &mut usize,
) -> u32
    ensures value { (w : Counts) → result ≡ status (received_with a w) }
    ensures kind_after { (w : Counts) → kind.new ≡ output kind_of kind.old (received_with a w) }
    ensures numbers_after { (w : Counts) → numbers.new ≡ output (ticks_or numbers.old) numbers.old (received_with a w) }
    ensures len_after { (w : Counts) → len.new ≡ output (length_or len.old) len.old (received_with a w) }
{
    match a {
        Ok(None) => {
            *kind = 0;
            0
        }
        Ok(
            Some(
                Received::Delta {
                    tick,
                    delta_tick,
                    len: n,
                    crc,
                },
            ),
        ) => {
            *kind = 1;
            *numbers = [tick.0, delta_tick.0, crc];
            *len = n;
            0
        }
        Ok(Some(Received::Empty { tick, delta_tick })) => {
            *kind = 2;
            *numbers = [tick.0, delta_tick.0, 0];
            *len = 0;
            0
        }
        Err(e) => u32::from(e),
    }
}

// Writes the ticks that a message left, if it was taken.
fn put_ticks(
    a: Result<Option<Received>, Error>,
    t: Ticks,
    ticks: &mut [i32; 4],
    counts: &mut [u32; 3],
)
    ensures { Rows t a ticks.old counts.old ticks.new counts.new }
{
    if a.is_ok() {
        write_ticks(t, ticks, counts);
    }
}

// How many messages the bytes of a delta make.
#[unsafe(no_mangle)]
pub extern "C" fn cef_num_chunks(data: &[u8], count: &mut usize) -> u32
    ensures value { result ≡ status (num_chunks_call (pos 0) (pos 0) «data».now (pos 0)) }
    ensures count_after { count.new ≡ output (λ n. n) count.old (num_chunks_call (pos 0) (pos 0) «data».now (pos 0)) }
{
    told(delta_chunks::num_chunks(data), count)
}

// Writes the numbers of a message in a row; returns its kind.
fn row_of(m: SnapMsg, numbers: &mut [i32; 5]) -> u32
    ensures value { result ≡ kind_of_numbers (gamenet.numbers m) }
    ensures numbers_after { numbers.new ≡ row_of (gamenet.numbers m) }
{
    match m {
        SnapMsg::Snap {
            tick,
            delta_tick,
            num_parts,
            part,
            crc,
        } => {
            *numbers = [tick.0, delta_tick.0, num_parts, part, crc];
            1
        }
        SnapMsg::SnapEmpty { tick, delta_tick } => {
            *numbers = [tick.0, delta_tick.0, 0, 0, 0];
            2
        }
        SnapMsg::SnapSingle {
            tick,
            delta_tick,
            crc,
        } => {
            *numbers = [tick.0, delta_tick.0, 0, 0, crc];
            3
        }
    }
}

// The i-th message: its numbers, and how many bytes it has.
#[unsafe(no_mangle)]
pub extern "C" fn cef_chunk(
    tick: i32,
    delta_tick: i32,
    data: &[u8],
    crc: i32,
    i: usize,
    kind: &mut u32,
    numbers: &mut [i32; 5],
    len: &mut usize,
) -> u32
    ensures value { result ≡ status (chunk_call tick delta_tick «data».now crc i) }
    ensures kind_after { kind.new ≡ output kind_of_message kind.old (chunk_call tick delta_tick «data».now crc i) }
    ensures numbers_after { numbers.new ≡ output (numbers_or numbers.old) numbers.old (chunk_call tick delta_tick «data».now crc i) }
    ensures len_after { len.new ≡ output bytes_in len.old (chunk_call tick delta_tick «data».now crc i) }
{
    let part = delta_chunks::chunk_data(data, i);
    match delta_chunks::chunk_numbers(Tick(tick), Tick(delta_tick), data, crc, i) {
        Ok(Some(m)) => {
            *kind = row_of(m, numbers);
            *len = part.len();
            0
        }
        Ok(None) => {
            *kind = 0;
            *len = 0;
            0
        }
        Err(e) => u32::from(e),
    }
}

// A receiver without any tick.
#[unsafe(no_mangle)]
pub extern "C" fn cef_receiver_new(
    ticks: &mut [i32; 4],
    counts: &mut [u32; 3],
    lengths: &mut [u16; 32],
)
    ensures ticks_after { ticks.new ≡ ticks_of_receiver fresh_receiver }
    ensures counts_after { counts.new ≡ counts_of_receiver fresh_receiver }
    ensures lengths_after { lengths.new ≡ fresh_receiver.parts }
{
    write_receiver(DeltaReceiver::new(), ticks, counts, lengths);
}

// Forgets both ticks.
#[unsafe(no_mangle)]
pub extern "C" fn cef_receiver_reset(
    ticks: &mut [i32; 4],
    counts: &mut [u32; 3],
    lengths: &mut [u16; 32],
)
    ensures ticks_after { ticks.new ≡ ticks_of_receiver fresh_receiver }
    ensures counts_after { counts.new ≡ counts_of_receiver fresh_receiver }
    ensures lengths_after { lengths.new ≡ fresh_receiver.parts }
{
    let r = load_receiver(ticks, counts, lengths);
    write_receiver(r.reset(), ticks, counts, lengths);
}

// Takes a part of a delta; the last missing part joins them all in joined.
#[unsafe(no_mangle)]
pub extern "C" fn cef_receiver_snap(
    ticks: &mut [i32; 4],
    counts: &mut [u32; 3],
    lengths: &mut [u16; 32],
    tick: i32,
    distance: i32,
    num_parts: i32,
    part: i32,
    crc: i32,
    data: &[u8],
    parts: &mut [u8],
    joined: &mut [u8],
    kind: &mut u32,
    received: &mut [i32; 3],
    len: &mut usize,
    warnings: &mut [usize; WARNING_KINDS],
) -> u32
    ensures value { result ≡ status (snap_call (held_receiver ticks.old counts.old lengths.old) (record { tick = tick; distance = record { ticks = distance }; num_parts = num_parts; part = part; crc = crc }) «data».now parts.old joined.old).answer }
    ensures ticks_value { ticks.new ≡ ticks_after ticks.old (snap_call (held_receiver ticks.old counts.old lengths.old) (record { tick = tick; distance = record { ticks = distance }; num_parts = num_parts; part = part; crc = crc }) «data».now parts.old joined.old) }
    ensures counts_after { counts.new ≡ counts_after counts.old (snap_call (held_receiver ticks.old counts.old lengths.old) (record { tick = tick; distance = record { ticks = distance }; num_parts = num_parts; part = part; crc = crc }) «data».now parts.old joined.old) }
    ensures lengths_after { lengths.new ≡ (snap_call (held_receiver ticks.old counts.old lengths.old) (record { tick = tick; distance = record { ticks = distance }; num_parts = num_parts; part = part; crc = crc }) «data».now parts.old joined.old).receiver.parts }
    ensures parts_after { parts.new ≡ (snap_call (held_receiver ticks.old counts.old lengths.old) (record { tick = tick; distance = record { ticks = distance }; num_parts = num_parts; part = part; crc = crc }) «data».now parts.old joined.old).parts }
    ensures joined_after { joined.new ≡ (snap_call (held_receiver ticks.old counts.old lengths.old) (record { tick = tick; distance = record { ticks = distance }; num_parts = num_parts; part = part; crc = crc }) «data».now parts.old joined.old).joined }
    ensures kind_after { kind.new ≡ output kind_of kind.old (snap_call (held_receiver ticks.old counts.old lengths.old) (record { tick = tick; distance = record { ticks = distance }; num_parts = num_parts; part = part; crc = crc }) «data».now parts.old joined.old).answer }
    ensures received_after { received.new ≡ output (ticks_or received.old) received.old (snap_call (held_receiver ticks.old counts.old lengths.old) (record { tick = tick; distance = record { ticks = distance }; num_parts = num_parts; part = part; crc = crc }) «data».now parts.old joined.old).answer }
    ensures len_after { len.new ≡ output (length_or len.old) len.old (snap_call (held_receiver ticks.old counts.old lengths.old) (record { tick = tick; distance = record { ticks = distance }; num_parts = num_parts; part = part; crc = crc }) «data».now parts.old joined.old).answer }
    ensures warnings_after { warnings.new ≡ Totals.row (warnings_of (snap_call (held_receiver ticks.old counts.old lengths.old) (record { tick = tick; distance = record { ticks = distance }; num_parts = num_parts; part = part; crc = crc }) «data».now parts.old joined.old).answer) }
{
    let m = Part {
        tick: Tick(tick),
        delta_tick: Distance(distance),
        num_parts,
        part,
        crc,
    };
    let r = load_ticks(ticks, counts);
    let s = receive(r, m, lengths, data, parts, joined);
    *warnings = row(s.warnings);
    put_ticks(s.answer, s.ticks, ticks, counts);
    tell(s.answer, kind, received, len)
}

// Takes a whole delta, into joined.
#[unsafe(no_mangle)]
pub extern "C" fn cef_receiver_snap_single(
    ticks: &mut [i32; 4],
    counts: &mut [u32; 3],
    lengths: &mut [u16; 32],
    tick: i32,
    distance: i32,
    crc: i32,
    data: &[u8],
    joined: &mut [u8],
    kind: &mut u32,
    received: &mut [i32; 3],
    len: &mut usize,
    warnings: &mut [usize; WARNING_KINDS],
) -> u32
    ensures value { result ≡ status (snap_single_call (held_receiver ticks.old counts.old lengths.old) tick (record { ticks = distance }) crc «data».now [] joined.old).answer }
    ensures ticks_value { ticks.new ≡ ticks_after ticks.old (snap_single_call (held_receiver ticks.old counts.old lengths.old) tick (record { ticks = distance }) crc «data».now [] joined.old) }
    ensures counts_after { counts.new ≡ counts_after counts.old (snap_single_call (held_receiver ticks.old counts.old lengths.old) tick (record { ticks = distance }) crc «data».now [] joined.old) }
    ensures lengths_after { lengths.new ≡ (snap_single_call (held_receiver ticks.old counts.old lengths.old) tick (record { ticks = distance }) crc «data».now [] joined.old).receiver.parts }
    ensures joined_after { joined.new ≡ (snap_single_call (held_receiver ticks.old counts.old lengths.old) tick (record { ticks = distance }) crc «data».now [] joined.old).joined }
    ensures kind_after { kind.new ≡ output kind_of kind.old (snap_single_call (held_receiver ticks.old counts.old lengths.old) tick (record { ticks = distance }) crc «data».now [] joined.old).answer }
    ensures received_after { received.new ≡ output (ticks_or received.old) received.old (snap_single_call (held_receiver ticks.old counts.old lengths.old) tick (record { ticks = distance }) crc «data».now [] joined.old).answer }
    ensures len_after { len.new ≡ output (length_or len.old) len.old (snap_single_call (held_receiver ticks.old counts.old lengths.old) tick (record { ticks = distance }) crc «data».now [] joined.old).answer }
    ensures warnings_after { warnings.new ≡ Totals.row (warnings_of (snap_single_call (held_receiver ticks.old counts.old lengths.old) tick (record { ticks = distance }) crc «data».now [] joined.old).answer) }
{
    let r = load_ticks(ticks, counts);
    let s = receive_single(
        r,
        Tick(tick),
        Distance(distance),
        crc,
        lengths,
        data,
        joined,
    );
    *warnings = row(s.warnings);
    put_ticks(s.answer, s.ticks, ticks, counts);
    tell(s.answer, kind, received, len)
}

// Takes an empty delta.
#[unsafe(no_mangle)]
pub extern "C" fn cef_receiver_snap_empty(
    ticks: &mut [i32; 4],
    counts: &mut [u32; 3],
    lengths: &mut [u16; 32],
    tick: i32,
    distance: i32,
    kind: &mut u32,
    received: &mut [i32; 3],
    len: &mut usize,
    warnings: &mut [usize; WARNING_KINDS],
) -> u32
    ensures value { result ≡ status (snap_empty_call (held_receiver ticks.old counts.old lengths.old) tick (record { ticks = distance }) [] []).answer }
    ensures ticks_value { ticks.new ≡ ticks_after ticks.old (snap_empty_call (held_receiver ticks.old counts.old lengths.old) tick (record { ticks = distance }) [] []) }
    ensures counts_after { counts.new ≡ counts_after counts.old (snap_empty_call (held_receiver ticks.old counts.old lengths.old) tick (record { ticks = distance }) [] []) }
    ensures lengths_after { lengths.new ≡ (snap_empty_call (held_receiver ticks.old counts.old lengths.old) tick (record { ticks = distance }) [] []).receiver.parts }
    ensures kind_after { kind.new ≡ output kind_of kind.old (snap_empty_call (held_receiver ticks.old counts.old lengths.old) tick (record { ticks = distance }) [] []).answer }
    ensures received_after { received.new ≡ output (ticks_or received.old) received.old (snap_empty_call (held_receiver ticks.old counts.old lengths.old) tick (record { ticks = distance }) [] []).answer }
    ensures len_after { len.new ≡ output (length_or len.old) len.old (snap_empty_call (held_receiver ticks.old counts.old lengths.old) tick (record { ticks = distance }) [] []).answer }
    ensures warnings_after { warnings.new ≡ Totals.row (warnings_of (snap_empty_call (held_receiver ticks.old counts.old lengths.old) tick (record { ticks = distance }) [] []).answer) }
{
    let r = load_ticks(ticks, counts);
    let s = receive_empty(r, Tick(tick), Distance(distance), lengths);
    *warnings = row(s.warnings);
    put_ticks(s.answer, s.ticks, ticks, counts);
    tell(s.answer, kind, received, len)
}

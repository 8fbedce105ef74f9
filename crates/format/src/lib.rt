// What all calls share: keys, refusals, and the warnings counted by kind.
#![tactic(auto)]

ghost use Rattle.std.specs.Prelude.{◌≡◌, cond, ◌/◌, ◌%◌};
ghost use Rattle.std.proofs.Math.Option as Option;
ghost use Rattle.definitions.specs.Ints.{bits};
ghost use Rattle.definitions.specs.Warnings.{none};
ghost use Rattle.definitions.specs.Packed.{warned};
ghost use Rattle.definitions.specs.Tables.{key_of};
ghost use Rattle.definitions.specs.DeltaCalls.{create_item_delta_call, apply_item_delta_call};
ghost use Rattle.format.specs.Numbers.{number};
ghost use Rattle.format.specs.Totals as Totals;
ghost use Rattle.format.specs.Totals.{counts};
ghost use Rattle.format.specs.Sources.{table_counts, delta_counts, typed_counts, flagged, taken_counts};
ghost use Rattle.laws.specs.WarningLaws.{packed};
ghost use Rattle.laws.specs.WarningKinds.{merge};
ghost use Rattle.format.specs.Answers.{stored_ints};

// Why a call is refused, in the order of the table of refusals in docs/FORMAT.md.
#[derive(Clone, Copy, PartialEq, Eq)]
pub enum Error {
    // Reading and making tables and deltas: snap::Error in the Rust.
    UnexpectedEnd,
    IntOutOfRange,
    DeletedItemsUnpacking,
    ItemDiffsUnpacking,
    TypeIdRange,
    IdRange,
    NegativeSize,
    TooLongSnap,
    TooManyItems,
    DeltaDifferingSizes,
    OffsetsUnpacking,
    InvalidOffset,
    ItemsUnpacking,
    DuplicateKey,
    DuplicateUuidType,
    InvalidUuidType,
    MissingUuidType,
    // The receiver: receiver::Error in the Rust.
    OldDelta,
    InvalidNumParts,
    InvalidPart,
    DuplicatePart,
    // The store: storage::Error in the Rust.
    StoreOldDelta,
    UnknownSnap,
    InvalidCrc,
    // A result longer than its area.
    CapacityError,
    // Cases that the Rust does not refuse, or in which it panics.
    ScratchTooShort,
    InputTooLong,
    PartTooLong,
    StoreFull,
    InvalidTypeId,
    KnownSizeDiffers,
    NotInForm,
    NonZeroIntPadding,
    ShortRule,
}

// The number of a refusal in docs/FORMAT.md.
impl From<Error> for u32 {
    ghost from_gives = { λ e n. n ≡ number e };

    fn from(e: Error) -> u32 {
        match e {
            Error::UnexpectedEnd => 1,
            Error::IntOutOfRange => 2,
            Error::DeletedItemsUnpacking => 3,
            Error::ItemDiffsUnpacking => 4,
            Error::TypeIdRange => 5,
            Error::IdRange => 6,
            Error::NegativeSize => 7,
            Error::TooLongSnap => 8,
            Error::TooManyItems => 9,
            Error::DeltaDifferingSizes => 10,
            Error::OffsetsUnpacking => 11,
            Error::InvalidOffset => 12,
            Error::ItemsUnpacking => 13,
            Error::DuplicateKey => 14,
            Error::DuplicateUuidType => 15,
            Error::InvalidUuidType => 16,
            Error::MissingUuidType => 17,
            Error::OldDelta => 20,
            Error::InvalidNumParts => 21,
            Error::InvalidPart => 22,
            Error::DuplicatePart => 23,
            Error::StoreOldDelta => 30,
            Error::UnknownSnap => 31,
            Error::InvalidCrc => 32,
            Error::CapacityError => 40,
            Error::ScratchTooShort => 41,
            Error::InputTooLong => 42,
            Error::PartTooLong => 43,
            Error::StoreFull => 44,
            Error::InvalidTypeId => 45,
            Error::KnownSizeDiffers => 46,
            Error::NotInForm => 47,
            Error::NonZeroIntPadding => 52,
            Error::ShortRule => 55,
        }
    }
}

// How many kinds of warning there are.
pub const WARNING_KINDS: usize = 12;

// How many warnings of each kind were counted.
#[derive(Clone, Copy)]
pub struct Warnings {
    // From the packer.
    pub overlong_int_encoding: usize,
    // From tables and deltas.
    pub non_zero_padding: usize,
    pub duplicate_delete: usize,
    pub duplicate_update: usize,
    pub unknown_delete: usize,
    pub delete_update: usize,
    pub num_updated_items: usize,
    pub excess_snap_data: usize,
    pub excess_uuid_item_data: usize,
    // From the receiver.
    pub duplicate_snap: usize,
    pub differing_attributes: usize,
    // From the store.
    pub weird_negative_delta_tick: usize,
}

impl Warnings {
    // No warnings.
    pub fn none() -> Warnings
        ensures { counts result ≡ none }
    {
        Warnings {
            overlong_int_encoding: 0,
            non_zero_padding: 0,
            duplicate_delete: 0,
            duplicate_update: 0,
            unknown_delete: 0,
            delete_update: 0,
            num_updated_items: 0,
            excess_snap_data: 0,
            excess_uuid_item_data: 0,
            duplicate_snap: 0,
            differing_attributes: 0,
            weird_negative_delta_tick: 0,
        }
    }

    // The packer's warning.
    pub fn packed(overlong: usize) -> Warnings
        ensures { counts result ≡ packed overlong }
    {
        Warnings {
            overlong_int_encoding: overlong,
            ..Warnings::none()
        }
    }

    // The warnings of reading a table: the packer's, how often ints are left over, and how many kinds have more than four ints.
    pub fn table(overlong: usize, excess: usize, kinds: usize) -> Warnings
        ensures { counts result ≡ table_counts overlong excess kinds }
    {
        Warnings {
            excess_snap_data: excess,
            excess_uuid_item_data: kinds,
            ..Warnings::packed(overlong)
        }
    }

    // The warnings of reading a delta: the packer's, non-zero padding, keys deleted twice, repeated updates, updates of deleted keys, a wrong
    // count of updates.
    pub fn delta(
        overlong: usize,
        odd: bool,
        twice: bool,
        repeats: usize,
        crossing: usize,
        other: bool,
    ) -> Warnings
        ensures { counts result ≡ delta_counts overlong odd twice repeats crossing other }
    {
        Warnings {
            non_zero_padding: usize::from(odd),
            duplicate_delete: usize::from(twice),
            duplicate_update: repeats,
            delete_update: crossing,
            num_updated_items: usize::from(other),
            ..Warnings::packed(overlong)
        }
    }

    // The warnings of applying a delta: whether the base lacks a deleted key, and how many kinds have more than four ints.
    pub fn applied(unknown_delete: bool, kinds: usize) -> Warnings
        ensures { counts result ≡ typed_counts unknown_delete kinds }
    {
        Warnings {
            unknown_delete: usize::from(unknown_delete),
            excess_uuid_item_data: kinds,
            ..Warnings::none()
        }
    }

    // The receiver's warnings: the message's tick was unfinished, or its numbers differ.
    pub fn received(duplicate: bool, differing: bool) -> Warnings
        ensures { counts result ≡ flagged duplicate differing }
    {
        Warnings {
            duplicate_snap: usize::from(duplicate),
            differing_attributes: usize::from(differing),
            ..Warnings::none()
        }
    }

    // The store's warnings: whether the base's tick is negative and not -1, and those of applying.
    pub fn taken(weird: bool, unknown_delete: bool, kinds: usize) -> Warnings
        ensures { counts result ≡ taken_counts weird unknown_delete kinds }
    {
        Warnings {
            weird_negative_delta_tick: usize::from(weird),
            ..Warnings::applied(unknown_delete, kinds)
        }
    }

    // The warnings of a message: those of the receiver, of the delta that was read and of the store.
    pub fn merged(received: Warnings, read: Warnings, taken: Warnings) -> Warnings
        ensures { counts result ≡ merge (counts received) (counts read) (counts taken) }
    {
        Warnings {
            excess_snap_data: 0, // No step of a message counts it.
            duplicate_snap: received.duplicate_snap,
            differing_attributes: received.differing_attributes,
            unknown_delete: taken.unknown_delete,
            excess_uuid_item_data: taken.excess_uuid_item_data,
            weird_negative_delta_tick: taken.weird_negative_delta_tick,
            ..read
        }
    }
}

// The counts in the order of their kinds.
pub fn row(w: Warnings) -> [usize; WARNING_KINDS]
    ensures { result ≡ Totals.row (counts w) }
{
    [
        w.overlong_int_encoding,
        w.non_zero_padding,
        w.duplicate_delete,
        w.duplicate_update,
        w.unknown_delete,
        w.delete_update,
        w.num_updated_items,
        w.excess_snap_data,
        w.excess_uuid_item_data,
        w.duplicate_snap,
        w.differing_attributes,
        w.weird_negative_delta_tick,
    ]
}

// The counts of an integer's warning in that order.
pub fn warned_row(overlong: bool) -> [usize; WARNING_KINDS]
    ensures { result ≡ Totals.row (warned overlong) }
{
    row(Warnings::packed(usize::from(overlong)))
}

// The answer of a call that reads, which is how many ints it stored at the front of an area, with the warnings it counted.
#[derive(Clone, Copy)]
pub struct Reading {
    pub answer: Result<usize, Error>,
    pub warnings: Warnings,
}

// The key of a type and an id.
pub fn key(raw_type_id: u16, id: u16) -> i32
    ensures { bits result ≡ key_of raw_type_id id }
{
    ints::from_bits(raw_type_id as u32 * 65536 + id as u32)
}

// The type of a key.
pub fn key_to_raw_type_id(key: i32) -> u16
    ensures { result ≡ bits key / 65536 }
{
    (ints::to_bits(key) / 65536) as u16
}

// The id of a key.
pub fn key_to_id(key: i32) -> u16
    ensures { result ≡ bits key % 65536 }
{
    (ints::to_bits(key) % 65536) as u16
}

// Writes the differences of an item's data from the base's data, if there is any, to the front of out.
pub fn create_item_delta(
    has_from: bool,
    from: &[i32],
    to: &[i32],
    out: &mut [i32],
) -> Result<usize, Error>
    ensures { create_item_delta_call (cond has_from (Option.some from.now) Option.none) to.now out.old ≡ record { answer = stored_ints result; out = out.new } }
{
    if has_from {
        if from.len() != to.len() {
            return Err(Error::DeltaDifferingSizes);
        }
        if out.len() < to.len() {
            return Err(Error::CapacityError);
        }
        ints::checked::sub_into(out, 0, to, from);
        return Ok(to.len());
    }
    if ints::copy_into(out, 0, to) {
        return Ok(to.len());
    }
    Err(Error::CapacityError)
}

// Writes an item's data, made from its differences and the base's data, if there is any, to the front of out.
pub fn apply_item_delta(
    has_from: bool,
    from: &[i32],
    delta: &[i32],
    out: &mut [i32],
) -> Result<usize, Error>
    ensures { apply_item_delta_call (cond has_from (Option.some from.now) Option.none) delta.now out.old ≡ record { answer = stored_ints result; out = out.new } }
{
    if has_from {
        if from.len() != delta.len() {
            return Err(Error::DeltaDifferingSizes);
        }
        if out.len() < delta.len() {
            return Err(Error::CapacityError);
        }
        ints::checked::add_into(out, 0, from, delta);
        return Ok(delta.len());
    }
    if ints::copy_into(out, 0, delta) {
        return Ok(delta.len());
    }
    Err(Error::CapacityError)
}

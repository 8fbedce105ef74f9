// Ticks and the distances between them: two sorts of count. Only the wrapping subtraction relates them.
#![tactic(auto)]

ghost use Rattle.std.specs.Prelude.{◌≡◌, pos};
ghost use Rattle.definitions.specs.Ints.{signed_less};
ghost use Rattle.definitions.specs.Messages.{base_tick, distance};
ghost use Rattle.definitions.specs.Receiver.{same};
ghost use Rattle.ticks.specs.Ticks.{distance_of};

// The tick of a table.
#[derive(Clone, Copy, PartialEq, Eq, PartialOrd, Ord)]
pub struct Tick(pub i32);

// How far a table's tick is past its base's tick.
#[derive(Clone, Copy, PartialEq, Eq)]
pub struct Distance(pub i32);

impl Tick {
    // The tick that lies a distance before this one; it wraps on purpose.
    pub fn minus(self, d: Distance) -> Tick
        ensures { result.0 ≡ base_tick self.0 (distance_of d) }
    {
        Tick(ints::wrapping_sub(self.0, d.0))
    }

    // The distance from a base's tick to this one; it wraps on purpose.
    pub fn since(self, base: Tick) -> Distance
        ensures { distance_of result ≡ distance self.0 base.0 }
    {
        Distance(ints::wrapping_sub(self.0, base.0))
    }

    // Whether this tick is below another.
    pub fn is_before(self, other: Tick) -> bool
        ensures { result ≡ signed_less self.0 other.0 }
    {
        self < other
    }

    // Whether two ticks are equal.
    pub fn is_same(self, other: Tick) -> bool
        ensures { result ≡ same self.0 other.0 }
    {
        self == other
    }

    // Whether this tick is below 0, so that it names no table.
    pub fn is_negative(self) -> bool
        ensures { result ≡ signed_less self.0 (pos 0) }
    {
        self.0 < 0
    }
}

//! Values of at most 128 bits, and the operations on them.

ghost use Rattle.std.specs.Prelude.{◌≡◌, ◌+◌, ◌-◌, ◌*◌, ◌^◌, ◌<◌, ◌≤◌, ◌↔◌, [], ◌∷◌, ◌++◌, length, take, drop, IsTrue, IfOk, IfErr, OnOk, OnErr};
ghost use Rattle.std.specs.Option.{SomeIff};
ghost use Rattle.ipdl_base.specs.Bits.{bits_of, number_of, xor_bits, and_bits, not_bits, same_bits};

use std::marker::Model;

// A number of at most 128 bits in two halves, so that it stands at any multiple of eight bytes: a
// tree and an expression are a third smaller by it than with a `u128`.
#[derive(Clone, Copy, Debug)]
struct Halves {
    high: u64,
    low: u64,
}

impl Model for Halves {
    ghost use Rattle.std.specs.Prelude.{ℕ, ◌+◌, ◌*◌, ◌/◌, ◌%◌, ◌^◌, ◌<◌};
    ghost use Rattle.ipdl_base.specs.BitsLaws.{halves_of_sum};

    ghost Value = { ℕ };

    ghost view = { λ h. h.high * 2 ^ 64 + h.low };

    ghost invariant = { λ h. h.low < 2 ^ 64 };

    ghost inverse = { λ n. record { high = n / 2 ^ 64; low = n % 2 ^ 64 } };

    ghost inverse_ok = { λ h within. halves_of_sum h.high h.low within (λ a b. record { high = a; low = b }) };
}

impl Halves {
    fn of(number: u128) -> Halves
        ensures { result ≡ number }
    {
        Halves {
            high: (number >> 64) as u64,
            low: (number % (1 << 64)) as u64,
        }
    }

    fn number(self) -> u128
        ensures { result ≡ self }
    {
        (u128::from(self.high) << 64) + u128::from(self.low)
    }
}

/// At most 128 bits, which contracts see as the list of the bits, the first on the left. The
/// first bit is the highest one of the number that the bits spell. The number of bits is the
/// width, and it counts: `01` and `1` are different.
#[derive(Clone, Copy, Debug)]
pub struct Bits {
    width: u8,
    value: Halves,
}

impl Model for Bits {
    ghost use Rattle.std.specs.Prelude.{◌<◌, ◌≤◌, ◌^◌, Bool, List, length};
    ghost use Rattle.ipdl_base.specs.Bits.{bits_of, number_of};
    ghost use Rattle.ipdl_base.specs.BitsLaws.{width_and_number-bits_of};

    ghost Value = { List Bool };

    ghost view = { λ b. bits_of b.width b.value };

    ghost invariant = { λ b. (b.width ≤ 128) × (b.value < 2 ^ b.width) };

    ghost inverse = { λ bits. record { width = length bits; value = number_of bits } };

    ghost inverse_ok = { λ b within. width_and_number-bits_of b.width b.value within.1 (λ w n. record { width = w; value = n }) };
}

/// A range that goes past the last bit.
#[derive(Clone, Copy, Debug, PartialEq, Eq)]
pub struct OutOfBits {
    /// The number of bits from the first one to the end of the range.
    pub end: u16,
    /// The number of bits that there are.
    pub width: u8,
}

// The greatest number of the width: its bits are ones.
fn ones(width: u8) -> u128
    requires { width ≤ 128 }
    ensures { result ≡ 2 ^ width - 1 }
{
    if width == 128 {
        u128::MAX
    } else {
        (1 << width) - 1
    }
}

// The number that the bits of `high` and then those of `low` spell.
fn joined(high: u128, high_width: u8, low: u128, low_width: u8) -> u128
    requires fits { high_width + low_width ≤ 128 }
    requires high { high < 2 ^ high_width }
    requires low { low < 2 ^ low_width }
    ensures { result ≡ high * 2 ^ low_width + low }
{
    // A shift by all 128 places is not allowed; then `high` has no bits.
    if high_width == 0 {
        low
    } else {
        (high << low_width) + low
    }
}

impl Bits {
    /// The bits of the number, with zeros before them up to the width. None where the width is
    /// above 128 or the number has more bits.
    pub fn new(width: u8, value: u128) -> Option<Bits>
        ensures { SomeIff result ((width ≤ 128) × (value < 2 ^ width)) (bits_of width value) }
    {
        if width > 128 || value > ones(width) {
            return None;
        }
        Some(Bits {
            width,
            value: Halves::of(value),
        })
    }

    /// How many bits there are.
    pub fn width(&self) -> u8
        ensures value { result ≡ length self.now }
        ensures within { length self.now ≤ 128 }
    {
        self.width
    }

    /// The number that the bits spell, 0 for no bits.
    pub fn value(&self) -> u128
        ensures { result ≡ number_of self.now }
    {
        self.value.number()
    }

    /// Bit by bit, whether the two differ. None where the widths differ.
    pub fn xor(self, other: Bits) -> Option<Bits>
        ensures { SomeIff result (length self ≡ length other) (xor_bits self other) }
    {
        if self.width != other.width {
            return None;
        }
        Some(Bits {
            width: self.width,
            value: Halves::of(self.value.number() ^ other.value.number()),
        })
    }

    /// Bit by bit, whether both are set. None where the widths differ.
    pub fn and(self, other: Bits) -> Option<Bits>
        ensures { SomeIff result (length self ≡ length other) (and_bits self other) }
    {
        if self.width != other.width {
            return None;
        }
        Some(Bits {
            width: self.width,
            value: Halves::of(self.value.number() & other.value.number()),
        })
    }

    /// Each bit turned round.
    pub fn not(self) -> Bits
        ensures { result ≡ not_bits self }
    {
        Bits {
            width: self.width,
            value: Halves::of(self.value.number() ^ ones(self.width)),
        }
    }

    /// The bits of `self` and then those of `other`. None where these are more than 128.
    pub fn cat(self, other: Bits) -> Option<Bits>
        ensures { SomeIff result (length self + length other ≤ 128) (self ++ other) }
    {
        if other.width > 128 - self.width {
            return None;
        }
        let (high, low) = (self.value.number(), other.value.number());
        Some(Bits {
            width: self.width + other.width,
            value: Halves::of(joined(high, self.width, low, other.width)),
        })
    }

    /// The `count` bits from the place `from` on, places being counted from 0 on the left.
    pub fn cut(self, from: u8, count: u8) -> Result<Bits, OutOfBits>
        ensures within { OnOk result (from + count ≤ length self) }
        ensures value { IfOk result (λ bits. bits ≡ take count (drop from self)) }
        ensures past { OnErr result (length self < from + count) }
        ensures error { IfErr result (λ e. e ≡ record { end = from + count; width = length self }) }
    {
        let end = u16::from(from) + u16::from(count);
        if end > u16::from(self.width) {
            return Err(OutOfBits {
                end,
                width: self.width,
            });
        }
        // A shift by all 128 places is not allowed; it would leave no bits.
        if count == 0 {
            return Ok(Bits {
                width: 0,
                value: Halves::of(0),
            });
        }
        let behind = self.width - from - count;
        Ok(Bits {
            width: count,
            value: Halves::of((self.value.number() >> behind) & ones(count)),
        })
    }

    /// One bit: whether the two are the same bits. None where the widths differ.
    pub fn same(self, other: Bits) -> Option<Bits>
        ensures { SomeIff result (length self ≡ length other) (same_bits self other ∷ []) }
    {
        if self.width != other.width {
            return None;
        }
        Some(Bits::of_bool(self == other))
    }

    fn of_bool(bit: bool) -> Bits
        ensures { result ≡ bit ∷ [] }
    {
        let value = if bit { 1 } else { 0 };
        Bits {
            width: 1,
            value: Halves::of(value),
        }
    }
}

impl PartialEq for Bits {
    ghost use Rattle.std.specs.Cmp.{partial_equiv_from_equiv};
    ghost use Rattle.ipdl_base.specs.Bits.{same_bits};
    ghost use Rattle.ipdl_base.specs.BitsLaws.{same_bits-equivalence};

    ghost eq = { same_bits };

    ghost laws = { partial_equiv_from_equiv same_bits-equivalence };

    fn eq(&self, other: &Bits) -> bool
        ensures value { result ≡ same_bits self.now other.now }
        ensures same { IsTrue result ↔ (self.now ≡ other.now) }
    {
        self.width == other.width && self.value.number() == other.value.number()
    }
}

impl Eq for Bits {
    ghost use Rattle.ipdl_base.specs.BitsLaws.{same_bits-equivalence};

    ghost laws = { same_bits-equivalence };
}

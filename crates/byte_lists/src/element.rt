// What a list of bytes can spell: integers of 4 bytes, numbers of 8, and floats by their patterns of 8.
ghost use Rattle.std.specs.Prelude.{◌≡◌, ℕ, ◌*◌, ◌^◌, ◌<◌, List};
ghost use Rattle.std.specs.Float.{binary64};
ghost use Rattle.std.specs.Float.Ieee.{of_bits, to_bits};
ghost use Rattle.definitions.specs.Numbers.{zeroᶠ};
ghost use Rattle.byte_lists.specs.Bytes.{ints_of, numbers_of, floats_of, bytes_of_ints, bytes_of_numbers, bytes_of_floats};
ghost use Rattle.byte_lists.specs.Elements.{ElementLaws, int_laws, number_laws, float_laws};

pub trait Element: Copy {
    const BYTES: usize;

    const ZERO: Self;

    ghost BYTES: { ℕ };

    ghost ZERO: { Self };

    // The number whose bytes are the element's, and the element of such a number.
    ghost code: { Self → ℕ };

    ghost element: { ℕ → Self };

    ghost list_of: { List ℕ → List Self };

    ghost bytes_of: { List Self → List ℕ };

    fn code(self) -> u64
        ensures { result ≡ code self };

    fn from_code(n: u64) -> Self
        ensures { n < 2 ^ (8 * BYTES) → result ≡ element n };

    ghost laws: { ElementLaws BYTES code element list_of bytes_of };

    // A copy is the element itself.
    ghost clones: { (x : Self) → Self.is_infallible x × ((y : Self) → Self.is_clone x y → y ≡ x) };
}

impl Element for u32 {
    const BYTES: usize = 4;

    const ZERO: u32 = 0;

    ghost BYTES = { 4 };

    ghost ZERO = { 0 };

    ghost code = { λ x. x };

    ghost element = { λ n. n };

    ghost list_of = { ints_of };

    ghost bytes_of = { bytes_of_ints };

    ghost laws = { int_laws };

    ghost clones = { λ x. (tt, λ y e. e) };

    fn code(self) -> u64 {
        u64::from(self)
    }

    fn from_code(n: u64) -> u32 {
        (n % 0x1_0000_0000) as u32
    }
}

impl Element for u64 {
    const BYTES: usize = 8;

    const ZERO: u64 = 0;

    ghost BYTES = { 8 };

    ghost ZERO = { 0 };

    ghost code = { λ x. x };

    ghost element = { λ n. n };

    ghost list_of = { numbers_of };

    ghost bytes_of = { bytes_of_numbers };

    ghost laws = { number_laws };

    ghost clones = { λ x. (tt, λ y e. e) };

    fn code(self) -> u64 {
        self
    }

    fn from_code(n: u64) -> u64 {
        n
    }
}

impl Element for f64 {
    const BYTES: usize = 8;

    const ZERO: f64 = 0.0;

    ghost BYTES = { 8 };

    ghost ZERO = { zeroᶠ };

    ghost code = { to_bits binary64 };

    ghost element = { of_bits binary64 };

    ghost list_of = { floats_of };

    ghost bytes_of = { bytes_of_floats };

    ghost laws = { float_laws };

    ghost clones = { λ x. (tt, λ y e. e) };

    fn code(self) -> u64 {
        float_bits::bits_of(self)
    }

    fn from_code(n: u64) -> f64 {
        float_bits::of_bits(n)
    }
}

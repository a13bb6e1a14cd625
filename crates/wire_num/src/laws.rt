ghost use Rattle.std.specs.Prelude.{◌≡◌, ◌<◌, ◌≤◌, ◌^◌, ◌++◌, List, ℕ, ℤ, All, Ok, Err, length, take, drop, nat_lt, if◌then◌else◌};
ghost use Rattle.byteorder.specs.Endian.{little_bytes, big_bytes, little_number, big_number};
ghost use Rattle.wire_num.specs.Field.{bytes_at};
ghost use Rattle.wire_num.specs.Number.{little_at, big_at, little_signed, little_signed_at, IsSigned};
ghost use Rattle.wire_num.specs.Pixels.{pixels_bytes, pixels_of};

/// A number that has place in its field is read back from it: either byte first, and a signed one.
pub fn numbers_are_read_back()
    ensures little { (n x : ℕ) (rest : List ℕ) → x < 256 ^ n → little_at n (little_bytes n x ++ rest) ≡ Ok (x, rest) }
    ensures big { (n x : ℕ) (rest : List ℕ) → x < 256 ^ n → big_at n (big_bytes n x ++ rest) ≡ Ok (x, rest) }
    ensures signed { (n : ℕ) (z : ℤ) (rest : List ℕ) → 1 ≤ n → IsSigned n z → little_signed_at n (little_signed n z ++ rest) ≡ Ok (z, rest) }
{}

/// A field of n bytes is a test of the length, and a number in it is that of `byteorder` in the first bytes.
pub fn fields_are_tests_of_the_length()
    ensures bytes { (n : ℕ) (bs : List ℕ) → bytes_at n bs ≡ (if nat_lt (length bs) n then Err bs else Ok (take n bs, drop n bs)) }
    ensures little { (n : ℕ) (bs : List ℕ) → little_at n bs ≡ (if nat_lt (length bs) n then Err bs else Ok (little_number n bs, drop n bs)) }
    ensures big { (n : ℕ) (bs : List ℕ) → big_at n bs ≡ (if nat_lt (length bs) n then Err bs else Ok (big_number n bs, drop n bs)) }
{}

/// Colours of 24 bits are read back from their bytes.
pub fn pixels_are_read_back()
    ensures { (colors : List ℕ) → All (λ color. color < 2 ^ 24) colors → pixels_of (pixels_bytes colors) ≡ colors }
{}

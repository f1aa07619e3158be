//! Laws of numbers in digits. Each is the contract of a function that does nothing: a caller that needs the law calls
//! the function.

ghost use Rattle.std.specs.Prelude.{◌≡◌, ◌↔◌, ◌<◌, ◌≤◌, ◌^◌, ℕ, List, length, Some};
ghost use Rattle.std.specs.Fmt.{decimal};
ghost use Rattle.std.specs.Str.Parse.{AllDigits, digits_value};
ghost use Rattle.decimal_digits.specs.Digits.{number_of_digits, plain_number};

/// Digits write their value in base ten, and nothing but digits writes a number.
pub fn digits_write_their_value()
    ensures { (most : ℕ) (text : List ℕ) (number : ℕ) → (number_of_digits most text ≡ Some number)
        ↔ ((0 < length text) × (length text ≤ most) × AllDigits 10 text × (digits_value 10 text ≡ number)) }
{}

/// A plain number is written in one way, which is that of `{}`: so a number that is written is read back, and no other
/// text is read as it.
pub fn plain_numbers_are_decimal()
    ensures { (text : List ℕ) (number : ℕ) → (plain_number text ≡ Some number)
        ↔ ((text ≡ decimal number) × (number < 10 ^ 19)) }
{}

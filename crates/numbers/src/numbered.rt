// Values that stand in a word by their number. A trait of its own: From and TryFrom would not say which number, nor that it is below
// a count.
ghost use Rattle.std.specs.Prelude.{◌≡◌, ℕ, ◌<◌};

pub trait Numbered {
    // The number of a value, what a number means, and how many values there are.
    ghost number: { Self → ℕ };

    ghost meant: { ℕ → Self };

    ghost COUNT: { ℕ };

    const COUNT: u32;

    fn number(self) -> u32
        ensures { result ≡ number self };

    // A number that no value has is taken for the last: whoever asks tests it first.
    fn from_number(word: u32) -> Self
        ensures { result ≡ meant word };

    // A value is meant by its number, which is below the count.
    ghost back: { (value : Self) → meant (number value) ≡ value };

    ghost below: { (value : Self) → number value < COUNT };
}

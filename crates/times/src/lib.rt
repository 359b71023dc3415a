// The time that headers carry in two words, as one f64.
#![tactic(auto)]

ghost use Rattle.std.specs.Prelude.{◌≡◌};
ghost use Rattle.times.specs.Time.{is_timestamp, time_of};

// Seconds and microseconds as one number of seconds: the Rust's expression, operation for operation, since another order would round to
// other bits.
pub fn timestamp(seconds: u32, microseconds: u32) -> f64
    ensures { result ≡ time_of seconds microseconds }
{
    seconds as f64 + microseconds as f64 / 1_000_000.0
}

// Whether a float has the very bits that the words give, as a writer asks. `==` alone takes -0.0 for 0.0, and it stands first since a NaN
// has no bits to ask for.
pub fn is_timestamp(t: f64, seconds: u32, microseconds: u32) -> bool
    ensures { result ≡ is_timestamp t seconds microseconds }
{
    let given = timestamp(seconds, microseconds);
    t == given && t.to_bits() == given.to_bits()
}

// Numbers in decimal, as text.
#![tactic(auto)]

ghost use Rattle.std.specs.Prelude.{◌≡◌, length};
ghost use Rattle.writing.specs.Write.{put_at};
ghost use Rattle.decimal.specs.Decimal.{decimal};

// Puts the decimal digits of a number at a place of the output; where they do not fit, nothing changes. Answers how many they are in
// either case.
pub fn put_decimal(out: &mut [u8], at: usize, n: usize) -> usize
    ensures value { result ≡ length (decimal n) }
    ensures out_after { out.new ≡ put_at out.old at (decimal n) }
{
    let count = digit_count(n);
    if wire::left(out, at) < count {
        return count;
    }
    let mut rest = n;
    let mut last = at + count - 1;
    while 10 <= rest {
        out[last] = 48 + ((rest % 10) as u8);
        rest = rest / 10;
        last -= 1;
    }
    out[last] = 48 + (rest as u8);
    count
}

// Most numbers of a listing have few digits, and comparing is cheaper than dividing.
fn digit_count(n: usize) -> usize
    ensures { result ≡ length (decimal n) }
{
    if n < 10 {
        return 1;
    }
    if n < 100 {
        return 2;
    }
    if n < 1_000 {
        return 3;
    }
    if n < 10_000 {
        return 4;
    }
    if n < 100_000 {
        return 5;
    }
    let mut rest = n;
    let mut count: usize = 1;
    while 10 <= rest {
        rest = rest / 10;
        count += 1;
    }
    count
}

// Signed numbers: their order, their size without the sign, and making one from a sign and a size.
#![tactic(auto)]

ghost use Rattle.std.specs.Prelude.{◌≡◌, nat_abs};
ghost use Rattle.std.specs.Int.Signed.{lt_z};
ghost use Rattle.sign.specs.Sign.{made};

// Whether a is below b. This and `size` say of the machine's own what the definitions of signed numbers say.
pub fn less(a: i32, b: i32) -> bool
    ensures { result ≡ lt_z a b }
{
    a < b
}

// The size of v, without its sign.
pub fn size(v: i32) -> u32
    ensures { result ≡ nat_abs v }
{
    v.unsigned_abs()
}

// The number of this size, below zero where minus says so; 0 where the size is 2^31 or more.
pub fn make(minus: bool, size: u32) -> i32
    ensures { result ≡ made minus size }
{
    let v = i32::try_from(size).unwrap_or(0);
    if minus { -v } else { v }
}

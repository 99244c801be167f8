ghost use Rattle.std.specs.Prelude.{◌≡◌};
ghost use Rattle.words.specs.Worked.{Cases};

// The worked cases of packing and of the steps hold together. It answers how many there are.
pub fn worked() -> u8
    ensures cases { Cases }
    ensures count { result ≡ 10 }
{
    10
}

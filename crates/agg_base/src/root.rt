// Square roots in whole numbers.
ghost use Rattle.std.specs.Prelude.{◌≡◌};
ghost use Rattle.agg_base.specs.Root.{IsRoot, RootIsGreatest, root};

/// The whole square root of a number: the greatest number whose square is at most `n`.
///
/// It is exact for every `n`, takes at most some 64 rounds, and takes no memory.
pub fn isqrt(n: u128) -> u128
    ensures greatest { IsRoot n result }
    ensures value { result ≡ root n }
{
    n.isqrt()
}

/// The whole square root that contracts name is the greatest number whose square is at most `n`.
pub fn root_law()
    ensures { RootIsGreatest }
{}

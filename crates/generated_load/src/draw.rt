// Numbers that are drawn.
ghost use Rattle.std.specs.Prelude.{◌≡◌, ◌<◌};
ghost use Rattle.generated_load.specs.Draws.{below, next};

/// The number behind this one (Knuth, "The Art of Computer Programming", 3.3.4, MMIX).
pub fn next(x: u64) -> u64
    ensures { result ≡ next x }
{
    let product = u128::from(x) * 6_364_136_223_846_793_005 + 1_442_695_040_888_963_407;
    (product % 18_446_744_073_709_551_616) as u64
}

/// A number below `n`, of the high bits of this one.
pub fn below(x: u64, n: u64) -> u64
    requires { 0 < n }
    ensures value { result ≡ below x n }
    ensures bound { result < n }
{
    x / 4_294_967_296 % n
}

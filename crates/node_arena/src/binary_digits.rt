//! Binary digits.
ghost use Rattle.std.specs.Prelude.{◌≡◌, ◌<◌, ◌≤◌, ◌+◌, ◌*◌, ◌^◌};

/// How many binary digits a number has; 0 for 0.
pub fn digits(n: u32) -> u8
    ensures above { n < 2 ^ result }
    ensures least { 2 ^ result ≤ 2 * n + 1 }
    ensures few { result ≤ 32 }
{
    let mut power: u64 = 1;
    for count in 0..32 {
        if u64::from(n) < power {
            return count;
        }
        power *= 2;
    }
    32
}

//! Whole square roots, rounded inward.
ghost use Rattle.std.specs.Prelude.{◌≡◌, ◌+◌, ◌*◌, ◌/◌, ◌<◌, ◌≤◌, ◌≤ℤ◌, pos};
ghost use Rattle.interval_back.specs.Roots.{root, root_below, root_above};

/// The greatest number from 0 whose square is at most `z`, and 0 where there is none.
pub fn root_below(z: i32) -> i64
    ensures value { result ≡ root_below z }
    ensures low { pos 0 ≤ℤ result }
    ensures high { result ≤ℤ pos 65536 }
{
    if z < 0 { 0 } else { i64::from(root(z as u32)) }
}

/// The least number from 0 whose square is at least `z`.
pub fn root_above(z: i32) -> i64
    ensures value { result ≡ root_above z }
    ensures low { pos 0 ≤ℤ result }
    ensures high { result ≤ℤ pos 65536 }
{
    if z <= 0 {
        0
    } else {
        i64::from(root((z - 1) as u32)) + 1
    }
}

/// The greatest number whose square is at most `n`, one binary digit after the other.
fn root(n: u32) -> u32
    ensures value { result ≡ root n }
    ensures bound { result < 65536 }
{
    let n = u64::from(n);
    let root = with_digit(n, 0, 65536);
    let root = with_digit(n, root, 32768);
    let root = with_digit(n, root, 16384);
    let root = with_digit(n, root, 8192);
    let root = with_digit(n, root, 4096);
    let root = with_digit(n, root, 2048);
    let root = with_digit(n, root, 1024);
    let root = with_digit(n, root, 512);
    let root = with_digit(n, root, 256);
    let root = with_digit(n, root, 128);
    let root = with_digit(n, root, 64);
    let root = with_digit(n, root, 32);
    let root = with_digit(n, root, 16);
    let root = with_digit(n, root, 8);
    let root = with_digit(n, root, 4);
    with_digit(n, root, 2) as u32
}

/// Where the whole root of `n` lies from `root` on and less than `width` above it: the start of the half in which it lies.
#[inline(always)]
fn with_digit(n: u64, root: u64, width: u64) -> u64
    requires even { width ≡ 2 * (width / 2) }
    requires range { root + width ≤ 65536 }
    requires square { root * root ≤ n }
    requires next { n < (root + width) * (root + width) }
    ensures range { result + width / 2 ≤ 65536 }
    ensures square { result * result ≤ n }
    ensures next { n < (result + width / 2) * (result + width / 2) }
{
    let middle = root + width / 2;
    if middle * middle <= n { middle } else { root }
}

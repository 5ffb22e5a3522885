//! Numbers as a few bytes.

ghost use Rattle.std.specs.Prelude.{◌≡◌, ◌+◌, ◌≤◌, ◌++◌, vec_len, vec_capacity};
ghost use Rattle.cl_log.specs.Numbers.{groups, number, number_at, unsigned, signed};
ghost use Rattle.cl_log.specs.declared.number.TheConstants.{NUMBER_ROOM};

/// The most bytes that a number takes.
pub const NUMBER_ROOM: usize = 10;

/// Puts a number last. It takes no memory.
#[tactic(auto, unfolding(crate::specs::Numbers::number))]
pub fn put_number(out: &mut Vec<u8>, n: u64)
    requires { vec_len out.old + NUMBER_ROOM ≤ vec_capacity out.old }
    ensures bytes { out.new.items ≡ out.old.items ++ number n }
    ensures room { vec_len out.new ≤ vec_len out.old + NUMBER_ROOM }
    ensures capacity { vec_capacity out.new ≡ vec_capacity out.old }
{
    put_groups(out, 9, n);
}

// A group is a byte, so a number of 64 bits has at most nine behind the first.
fn put_groups(out: &mut Vec<u8>, more: u8, n: u64)
    requires { vec_len out.old + more + 1 ≤ vec_capacity out.old }
    ensures bytes { out.new.items ≡ out.old.items ++ groups more n }
    ensures room { vec_len out.new ≤ vec_len out.old + more + 1 }
    ensures capacity { vec_capacity out.new ≡ vec_capacity out.old }
{
    if n < 128 {
        out.push_reserved(n as u8);
    } else if more == 0 {
        out.push_reserved((n % 128) as u8);
    } else {
        out.push_reserved((n % 128 + 128) as u8);
        put_groups(out, more - 1, n / 128);
    }
}

/// The number with which the bytes begin, and the bytes behind it.
#[tactic(auto, unfolding(crate::specs::Numbers::number_at))]
pub fn number_at(bytes: &[u8]) -> (u64, &[u8])
    ensures { (result.0, result.1.now) ≡ number_at bytes.now }
{
    match bytes {
        [] => (0, bytes),
        [byte, rest @ ..] => {
            if *byte < 128 {
                (u64::from(*byte), rest)
            } else {
                let (above, rest) = number_at(rest);
                let low = u64::from(*byte - 128);
                (low.wrapping_add(above.wrapping_mul(128)), rest)
            }
        }
    }
}

/// An `int` without its sign.
pub fn unsigned_int(n: i32) -> u32
    ensures { result ≡ unsigned n }
{
    if n >= 0 {
        n as u32 * 2
    } else {
        (-1 - n) as u32 * 2 + 1
    }
}

/// An `int` with its sign again.
pub fn signed_int(n: u32) -> i32
    ensures { result ≡ signed n }
{
    let half = (n / 2) as i32;
    if n % 2 == 0 { half } else { -1 - half }
}

/// A `long` without its sign.
pub fn unsigned_long(n: i64) -> u64
    ensures { result ≡ unsigned n }
{
    if n >= 0 {
        n as u64 * 2
    } else {
        (-1 - n) as u64 * 2 + 1
    }
}

/// A `long` with its sign again.
pub fn signed_long(n: u64) -> i64
    ensures { result ≡ signed n }
{
    let half = (n / 2) as i64;
    if n % 2 == 0 { half } else { -1 - half }
}

//! Arithmetic on 64-bit numbers, with its traps. (ISO/IEC 9899:1999, 6.5.3 to 6.5.9; where a result doesn't fit: this project.)

ghost use Rattle.std.specs.Prelude.{◌≡◌, ℤ, FitsSigned, pos, neg_ℤ, ◌+ℤ◌, ◌-ℤ◌, ◌*ℤ◌, int_div, int_rem};
ghost use Rattle.std.specs.Int.{w64};
ghost use Rattle.std.specs.Option.{SomeIff};
ghost use Rattle.cl_code.specs.Arithmetic.{fitting, divided, remaining, is_zero, truth};
ghost use Rattle.cl_model.specs.Numbers.{byte_of};

use cl_value::Trap;

const LEAST_INT: i64 = -2_147_483_648;

const GREATEST_INT: i64 = 2_147_483_647;

/// The number, where it is an `int`.
#[inline(always)]
pub fn as_int(n: i64) -> Result<i64, Trap>
    ensures { result ≡ fitting 31 n }
{
    if n < LEAST_INT || n > GREATEST_INT {
        Err(Trap::Overflow)
    } else {
        Ok(n)
    }
}

// A result that may not even be a `long`, where it is an `int`.
#[inline(always)]
fn as_int_or_trap(n: Option<i64>) -> Result<i64, Trap>
    ensures { (z : ℤ) → SomeIff n (FitsSigned w64 z) z → result ≡ fitting 31 z }
{
    match n {
        Some(n) => as_int(n),
        None => Err(Trap::Overflow),
    }
}

// A result, where it is a `long`.
#[inline(always)]
fn as_long_or_trap(n: Option<i64>) -> Result<i64, Trap>
    ensures { (z : ℤ) → SomeIff n (FitsSigned w64 z) z → result ≡ fitting 63 z }
{
    match n {
        Some(n) => Ok(n),
        None => Err(Trap::Overflow),
    }
}

/// The sum of two numbers as an `int`.
#[inline(always)]
pub fn int_sum(x: i64, y: i64) -> Result<i64, Trap>
    ensures { result ≡ fitting 31 (x +ℤ y) }
{
    as_int_or_trap(x.checked_add(y))
}

/// The difference of two numbers as an `int`.
#[inline(always)]
pub fn int_difference(x: i64, y: i64) -> Result<i64, Trap>
    ensures { result ≡ fitting 31 (x -ℤ y) }
{
    as_int_or_trap(x.checked_sub(y))
}

/// The product of two numbers as an `int`.
#[inline(always)]
pub fn int_product(x: i64, y: i64) -> Result<i64, Trap>
    ensures { result ≡ fitting 31 (x *ℤ y) }
{
    as_int_or_trap(x.checked_mul(y))
}

/// The quotient of two numbers as an `int`, cut toward zero.
#[inline(always)]
pub fn int_quotient(x: i64, y: i64) -> Result<i64, Trap>
    ensures { result ≡ divided 31 x y }
{
    if y == 0 {
        return Err(Trap::DivideByZero);
    }
    as_int_or_trap(x.checked_div(y))
}

/// The remainder of two numbers as an `int`, of the sign of the first.
#[inline(always)]
pub fn int_remainder(x: i64, y: i64) -> Result<i64, Trap>
    ensures { result ≡ remaining 31 x y }
{
    if y == 0 {
        return Err(Trap::DivideByZero);
    }
    if y == -1 {
        return if x == LEAST_INT {
            Err(Trap::Overflow)
        } else {
            Ok(0)
        };
    }
    as_int(x % y)
}

/// The negation of a number as an `int`.
#[inline(always)]
pub fn int_negation(x: i64) -> Result<i64, Trap>
    ensures { result ≡ fitting 31 (neg_ℤ x) }
{
    as_int_or_trap(x.checked_neg())
}

/// The sum of two numbers as a `long`.
#[inline(always)]
pub fn long_sum(x: i64, y: i64) -> Result<i64, Trap>
    ensures { result ≡ fitting 63 (x +ℤ y) }
{
    as_long_or_trap(x.checked_add(y))
}

/// The difference of two numbers as a `long`.
#[inline(always)]
pub fn long_difference(x: i64, y: i64) -> Result<i64, Trap>
    ensures { result ≡ fitting 63 (x -ℤ y) }
{
    as_long_or_trap(x.checked_sub(y))
}

/// The product of two numbers as a `long`.
#[inline(always)]
pub fn long_product(x: i64, y: i64) -> Result<i64, Trap>
    ensures { result ≡ fitting 63 (x *ℤ y) }
{
    as_long_or_trap(x.checked_mul(y))
}

/// The quotient of two numbers as a `long`, cut toward zero.
#[inline(always)]
pub fn long_quotient(x: i64, y: i64) -> Result<i64, Trap>
    ensures { result ≡ divided 63 x y }
{
    if y == 0 {
        return Err(Trap::DivideByZero);
    }
    as_long_or_trap(x.checked_div(y))
}

/// The remainder of two numbers as a `long`, of the sign of the first.
#[inline(always)]
pub fn long_remainder(x: i64, y: i64) -> Result<i64, Trap>
    ensures { result ≡ remaining 63 x y }
{
    if y == 0 {
        return Err(Trap::DivideByZero);
    }
    if y == -1 {
        return if x == i64::MIN {
            Err(Trap::Overflow)
        } else {
            Ok(0)
        };
    }
    Ok(x % y)
}

/// The negation of a number as a `long`.
#[inline(always)]
pub fn long_negation(x: i64) -> Result<i64, Trap>
    ensures { result ≡ fitting 63 (neg_ℤ x) }
{
    as_long_or_trap(x.checked_neg())
}

/// 1 or 0.
#[inline(always)]
pub fn truth(test: bool) -> i64
    ensures { result ≡ truth test }
{
    if test { 1 } else { 0 }
}

/// A number modulo 256.
#[inline(always)]
pub fn byte_of(n: i64) -> u8
    ensures { result ≡ byte_of n }
{
    let rest = n.unsigned_abs();
    if n < 0 {
        255 - ((rest - 1) % 256) as u8
    } else {
        (rest % 256) as u8
    }
}

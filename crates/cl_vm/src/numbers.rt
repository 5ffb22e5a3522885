//! What instructions do with the numbers on the stack. (ISO/IEC 9899:1999, 6.5.)

ghost use Rattle.std.specs.Prelude.{◌<◌, ◌≤◌, ◌+ℤ◌, ◌-ℤ◌, ◌*ℤ◌, neg_ℤ, pos, int_lt, length, not, Ok};
ghost use Rattle.std.specs.Ordering.{int_eq};
ghost use Rattle.cl_code.specs.Arithmetic.{fitting, divided, remaining, is_zero, truth, is_at_most};
ghost use Rattle.cl_code.specs.Machine.{on_one, on_two};
ghost use Rattle.cl_model.specs.Numbers.{byte_of};
ghost use Rattle.cl_vm.specs.Engine.{ActsAs};

use crate::arithmetic::{
    as_int, byte_of, int_difference, int_negation, int_product, int_quotient, int_remainder,
    int_sum, long_difference, long_negation, long_product, long_quotient, long_remainder, long_sum,
};
use crate::{Engine, Flow};

impl Engine {
    /// Adds two numbers as an `int`.
    #[inline(always)]
    pub(crate) fn add_int(&mut self) -> Flow
        requires { 2 ≤ length self.old.memory.stack }
        ensures { ActsAs (on_two (λ x y. fitting 31 (x +ℤ y))) self.old result self.new }
    {
        let (x, y) = self.two();
        self.give(int_sum(x, y))
    }

    /// Subtracts the upper number as an `int`.
    #[inline(always)]
    pub(crate) fn sub_int(&mut self) -> Flow
        requires { 2 ≤ length self.old.memory.stack }
        ensures { ActsAs (on_two (λ x y. fitting 31 (x -ℤ y))) self.old result self.new }
    {
        let (x, y) = self.two();
        self.give(int_difference(x, y))
    }

    /// Multiplies two numbers as an `int`.
    #[inline(always)]
    pub(crate) fn mul_int(&mut self) -> Flow
        requires { 2 ≤ length self.old.memory.stack }
        ensures { ActsAs (on_two (λ x y. fitting 31 (x *ℤ y))) self.old result self.new }
    {
        let (x, y) = self.two();
        self.give(int_product(x, y))
    }

    /// Divides by the upper number as an `int`.
    #[inline(always)]
    pub(crate) fn div_int(&mut self) -> Flow
        requires { 2 ≤ length self.old.memory.stack }
        ensures { ActsAs (on_two (λ x y. divided 31 x y)) self.old result self.new }
    {
        let (x, y) = self.two();
        self.give(int_quotient(x, y))
    }

    /// The remainder by the upper number as an `int`.
    #[inline(always)]
    pub(crate) fn rem_int(&mut self) -> Flow
        requires { 2 ≤ length self.old.memory.stack }
        ensures { ActsAs (on_two (λ x y. remaining 31 x y)) self.old result self.new }
    {
        let (x, y) = self.two();
        self.give(int_remainder(x, y))
    }

    /// Adds two numbers as a `long`.
    #[inline(always)]
    pub(crate) fn add_long(&mut self) -> Flow
        requires { 2 ≤ length self.old.memory.stack }
        ensures { ActsAs (on_two (λ x y. fitting 63 (x +ℤ y))) self.old result self.new }
    {
        let (x, y) = self.two();
        self.give(long_sum(x, y))
    }

    /// Subtracts the upper number as a `long`.
    #[inline(always)]
    pub(crate) fn sub_long(&mut self) -> Flow
        requires { 2 ≤ length self.old.memory.stack }
        ensures { ActsAs (on_two (λ x y. fitting 63 (x -ℤ y))) self.old result self.new }
    {
        let (x, y) = self.two();
        self.give(long_difference(x, y))
    }

    /// Multiplies two numbers as a `long`.
    #[inline(always)]
    pub(crate) fn mul_long(&mut self) -> Flow
        requires { 2 ≤ length self.old.memory.stack }
        ensures { ActsAs (on_two (λ x y. fitting 63 (x *ℤ y))) self.old result self.new }
    {
        let (x, y) = self.two();
        self.give(long_product(x, y))
    }

    /// Divides by the upper number as a `long`.
    #[inline(always)]
    pub(crate) fn div_long(&mut self) -> Flow
        requires { 2 ≤ length self.old.memory.stack }
        ensures { ActsAs (on_two (λ x y. divided 63 x y)) self.old result self.new }
    {
        let (x, y) = self.two();
        self.give(long_quotient(x, y))
    }

    /// The remainder by the upper number as a `long`.
    #[inline(always)]
    pub(crate) fn rem_long(&mut self) -> Flow
        requires { 2 ≤ length self.old.memory.stack }
        ensures { ActsAs (on_two (λ x y. remaining 63 x y)) self.old result self.new }
    {
        let (x, y) = self.two();
        self.give(long_remainder(x, y))
    }

    /// Whether the lower number is less.
    #[inline(always)]
    pub(crate) fn less(&mut self) -> Flow
        requires { 2 ≤ length self.old.memory.stack }
        ensures { ActsAs (on_two (λ x y. Ok (truth (int_lt x y)))) self.old result self.new }
    {
        let (x, y) = self.two();
        self.tell(x < y)
    }

    /// Whether the lower number is at most the upper one.
    #[inline(always)]
    pub(crate) fn less_equal(&mut self) -> Flow
        requires { 2 ≤ length self.old.memory.stack }
        ensures { ActsAs (on_two (λ x y. Ok (truth (is_at_most x y)))) self.old result self.new }
    {
        let (x, y) = self.two();
        self.tell(x <= y)
    }

    /// Whether the lower number is greater.
    #[inline(always)]
    pub(crate) fn greater(&mut self) -> Flow
        requires { 2 ≤ length self.old.memory.stack }
        ensures { ActsAs (on_two (λ x y. Ok (truth (int_lt y x)))) self.old result self.new }
    {
        let (x, y) = self.two();
        self.tell(x > y)
    }

    /// Whether the lower number is at least the upper one.
    #[inline(always)]
    pub(crate) fn greater_equal(&mut self) -> Flow
        requires { 2 ≤ length self.old.memory.stack }
        ensures { ActsAs (on_two (λ x y. Ok (truth (is_at_most y x)))) self.old result self.new }
    {
        let (x, y) = self.two();
        self.tell(x >= y)
    }

    /// Whether the two are equal.
    #[inline(always)]
    pub(crate) fn equal(&mut self) -> Flow
        requires { 2 ≤ length self.old.memory.stack }
        ensures { ActsAs (on_two (λ x y. Ok (truth (int_eq x y)))) self.old result self.new }
    {
        let (x, y) = self.two();
        self.tell(x == y)
    }

    /// Whether the two are different.
    #[inline(always)]
    pub(crate) fn not_equal(&mut self) -> Flow
        requires { 2 ≤ length self.old.memory.stack }
        ensures { ActsAs (on_two (λ x y. Ok (truth (not (int_eq x y))))) self.old result self.new }
    {
        let (x, y) = self.two();
        self.tell(x != y)
    }

    /// The negation as an `int`.
    #[inline(always)]
    pub(crate) fn neg_int(&mut self) -> Flow
        requires { 1 ≤ length self.old.memory.stack }
        ensures { ActsAs (on_one (λ x. fitting 31 (neg_ℤ x))) self.old result self.new }
    {
        let x = self.one();
        self.give(int_negation(x))
    }

    /// The negation as a `long`.
    #[inline(always)]
    pub(crate) fn neg_long(&mut self) -> Flow
        requires { 1 ≤ length self.old.memory.stack }
        ensures { ActsAs (on_one (λ x. fitting 63 (neg_ℤ x))) self.old result self.new }
    {
        let x = self.one();
        self.give(long_negation(x))
    }

    /// The number as an `int`.
    #[inline(always)]
    pub(crate) fn narrow(&mut self) -> Flow
        requires { 1 ≤ length self.old.memory.stack }
        ensures { ActsAs (on_one (λ x. fitting 31 x)) self.old result self.new }
    {
        let x = self.one();
        self.give(as_int(x))
    }

    /// 1 for 0, else 0.
    #[inline(always)]
    pub(crate) fn invert(&mut self) -> Flow
        requires { 1 ≤ length self.old.memory.stack }
        ensures { ActsAs (on_one (λ x. Ok (truth (is_zero x)))) self.old result self.new }
    {
        let x = self.one();
        self.tell(x == 0)
    }

    /// The number modulo 256.
    #[inline(always)]
    pub(crate) fn to_char(&mut self) -> Flow
        requires { 1 ≤ length self.old.memory.stack }
        ensures { ActsAs (on_one (λ x. Ok (pos (byte_of x)))) self.old result self.new }
    {
        let x = self.one();
        self.give(Ok(i64::from(byte_of(x))))
    }
}

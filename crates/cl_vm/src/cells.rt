//! What instructions do with cells, and with the place. (This project.)

ghost use Rattle.std.specs.Prelude.{◌≡◌, ◌<◌, ◌≤◌, ◌+◌, ◌∷◌, length, slice_get};
ghost use Rattle.cl_code.specs.Machine.{On, To, Local, Global, index_of, dropped, loads, stores, loads_at, stores_at, checks, clears, jumps_if_zero};
ghost use Rattle.cl_model.specs.Doing.{pure};
ghost use Rattle.cl_vm.specs.Engine.{ActsAs};
ghost use Rattle.cl_vm.specs.Runs.{HasElement};

use crate::{Engine, Flow};
use cl_value::Trap;

// An index of an array that is so long.
#[inline(always)]
fn index_of(x: i64, count: u32) -> Result<usize, Trap>
    ensures { result ≡ index_of x count }
{
    if x < 0 || x >= i64::from(count) {
        Err(Trap::IndexRange)
    } else {
        Ok(x as usize)
    }
}

impl Engine {
    /// Pushes a number.
    #[inline(always)]
    pub(crate) fn push_number(&mut self, n: i64) -> Flow
        requires { length self.old.memory.stack < self.old.memory.space }
        ensures { ActsAs (λ stack. pure (On (n ∷ stack))) self.old result self.new }
    {
        self.memory.push(n);
        Flow::On
    }

    /// Drops a number.
    #[inline(always)]
    pub(crate) fn drop_number(&mut self) -> Flow
        requires { 1 ≤ length self.old.memory.stack }
        ensures { ActsAs dropped self.old result self.new }
    {
        self.one();
        Flow::On
    }

    /// Pushes a cell of the frame.
    #[inline(always)]
    pub(crate) fn load_local(&mut self, k: u32) -> Flow
        requires cell { k < length self.old.memory.frame }
        requires room { length self.old.memory.stack < self.old.memory.space }
        ensures { ActsAs (loads Local k) self.old result self.new }
    {
        let n = self.memory.local(k as usize);
        self.memory.push(n);
        Flow::On
    }

    /// Takes a number into a cell of the frame.
    #[inline(always)]
    pub(crate) fn store_local(&mut self, k: u32) -> Flow
        requires cell { k < length self.old.memory.frame }
        requires number { 1 ≤ length self.old.memory.stack }
        ensures { ActsAs (stores Local k) self.old result self.new }
    {
        let n = self.one();
        self.memory.set_local(k as usize, n);
        Flow::On
    }

    /// Takes an index and pushes the element of an array of the frame.
    #[inline(always)]
    pub(crate) fn load_local_at(&mut self, base: u32, count: u32) -> Flow
        requires cells { HasElement base count (slice_get self.old.memory.stack 0) (length self.old.memory.frame) }
        requires number { 1 ≤ length self.old.memory.stack }
        ensures { ActsAs (loads_at Local base count) self.old result self.new }
    {
        let x = self.one();
        match index_of(x, count) {
            Ok(k) => {
                let n = self.memory.local(base as usize + k);
                self.memory.push(n);
                Flow::On
            }
            Err(trap) => Flow::Stop(trap),
        }
    }

    /// Takes a value and an index, and stores the value in an array of the frame.
    #[inline(always)]
    pub(crate) fn store_local_at(&mut self, base: u32, count: u32) -> Flow
        requires cells { HasElement base count (slice_get self.old.memory.stack 1) (length self.old.memory.frame) }
        requires numbers { 2 ≤ length self.old.memory.stack }
        ensures { ActsAs (stores_at Local base count) self.old result self.new }
    {
        let (x, n) = self.two();
        match index_of(x, count) {
            Ok(k) => {
                self.memory.set_local(base as usize + k, n);
                Flow::On
            }
            Err(trap) => Flow::Stop(trap),
        }
    }

    /// Pushes a cell of the globals.
    #[inline(always)]
    pub(crate) fn load_global(&mut self, k: u32) -> Flow
        requires cell { k < length self.old.memory.globals }
        requires room { length self.old.memory.stack < self.old.memory.space }
        ensures { ActsAs (loads Global k) self.old result self.new }
    {
        let n = self.memory.global(k as usize);
        self.memory.push(n);
        Flow::On
    }

    /// Takes a number into a cell of the globals.
    #[inline(always)]
    pub(crate) fn store_global(&mut self, k: u32) -> Flow
        requires cell { k < length self.old.memory.globals }
        requires number { 1 ≤ length self.old.memory.stack }
        ensures { ActsAs (stores Global k) self.old result self.new }
    {
        let n = self.one();
        self.memory.set_global(k as usize, n);
        Flow::On
    }

    /// Takes an index and pushes the element of an array of the globals.
    #[inline(always)]
    pub(crate) fn load_global_at(&mut self, base: u32, count: u32) -> Flow
        requires cells { HasElement base count (slice_get self.old.memory.stack 0) (length self.old.memory.globals) }
        requires number { 1 ≤ length self.old.memory.stack }
        ensures { ActsAs (loads_at Global base count) self.old result self.new }
    {
        let x = self.one();
        match index_of(x, count) {
            Ok(k) => {
                let n = self.memory.global(base as usize + k);
                self.memory.push(n);
                Flow::On
            }
            Err(trap) => Flow::Stop(trap),
        }
    }

    /// Takes a value and an index, and stores the value in an array of the globals.
    #[inline(always)]
    pub(crate) fn store_global_at(&mut self, base: u32, count: u32) -> Flow
        requires cells { HasElement base count (slice_get self.old.memory.stack 1) (length self.old.memory.globals) }
        requires numbers { 2 ≤ length self.old.memory.stack }
        ensures { ActsAs (stores_at Global base count) self.old result self.new }
    {
        let (x, n) = self.two();
        match index_of(x, count) {
            Ok(k) => {
                self.memory.set_global(base as usize + k, n);
                Flow::On
            }
            Err(trap) => Flow::Stop(trap),
        }
    }

    /// Tests the index that is the topmost number.
    #[inline(always)]
    pub(crate) fn check_index(&mut self, count: u32) -> Flow
        requires { 1 ≤ length self.old.memory.stack }
        ensures { ActsAs (checks count) self.old result self.new }
    {
        let x = self.one();
        match index_of(x, count) {
            Ok(_) => {
                self.memory.push(x);
                Flow::On
            }
            Err(trap) => Flow::Stop(trap),
        }
    }

    /// Sets cells of the frame to 0.
    #[inline(always)]
    pub(crate) fn clear(&mut self, base: u32, count: u32) -> Flow
        requires { base + count ≤ length self.old.memory.frame }
        ensures { ActsAs (clears base count) self.old result self.new }
    {
        self.memory.clear(base as usize, count as usize);
        Flow::On
    }

    /// Goes to an address.
    #[inline(always)]
    pub(crate) fn jump(&mut self, to: u32) -> Flow
        ensures { ActsAs (λ stack. pure (To to stack)) self.old result self.new }
    {
        self.place = to as usize;
        Flow::On
    }

    /// Takes a number and goes to an address where it is 0.
    #[inline(always)]
    pub(crate) fn jump_zero(&mut self, to: u32) -> Flow
        requires { 1 ≤ length self.old.memory.stack }
        ensures { ActsAs (jumps_if_zero to) self.old result self.new }
    {
        let x = self.one();
        if x == 0 {
            self.place = to as usize;
        }
        Flow::On
    }
}

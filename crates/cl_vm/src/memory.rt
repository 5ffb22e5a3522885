use cl_ground::NoMemory;
use std::alloc::Global;
use std::marker::Model;

/// What waits for the result of a function: where its own cells and numbers begin, and where it goes on.
#[derive(Clone, Copy)]
pub struct Waiting {
    /// The address behind the call.
    pub place: u32,
    /// How many cells the function has that was called.
    pub claimed: u32,
    /// Where its cells begin.
    pub base: usize,
    /// Where its numbers begin.
    pub floor: usize,
}

/// The cells and numbers of all active functions of a process, each kind one behind the other.
#[derive(Drop)]
pub struct Memory {
    // The globals, and the frames from the outermost function on.
    cells: Vec<i64>,
    // The numbers on the stacks, from the outermost function on.
    numbers: Vec<i64>,
    waiting: Vec<Waiting>,
    // How many globals there are.
    globals: usize,
    // Where the cells of the active function begin.
    base: usize,
    // Where its numbers begin.
    floor: usize,
}

impl Model for Memory {
    ghost use Rattle.cl_vm.specs.Memory.{Memory as Held};

    ghost Value = { Held };

    ghost use Rattle.cl_vm.specs.MemoryViews.{memory_of, IsLaidOut};

    ghost view = { memory_of };

    ghost invariant = { IsLaidOut };
}

impl Memory {
    ghost use Rattle.std.specs.Prelude.{◌≡◌, ◌+◌, ◌-◌, ◌<◌, ◌≤◌, [], ◌∷◌, length, reverse, take, slice_get, IfOk, Some};
    ghost use Rattle.cl_vm.specs.Memory.{empty_memory, with_pushed, with_local, with_global, with_cleared, with_added, with_dropped, with_entered, with_more, with_none};
    ghost use Rattle.cl_vm.specs.MemoryViews.{Left};

    /// A memory with these globals and no function, with room for so many cells, numbers and functions that wait.
    /// `NoMemory` comes where the allocator refused that room.
    pub fn new(
        alloc: Global,
        globals: &[i64],
        cells: usize,
        numbers: usize,
        functions: usize,
    ) -> Result<Memory, NoMemory>
        requires { length globals.now ≤ cells }
        ensures { IfOk result (λ m. m ≡ empty_memory globals.now cells numbers functions) }
    {
        let Ok(mut own) = Vec::with_capacity(alloc, cells) else {
            return Err(NoMemory);
        };
        let Ok(numbers) = Vec::with_capacity(alloc, numbers) else {
            return Err(NoMemory);
        };
        let Ok(waiting) = Vec::with_capacity(alloc, functions) else {
            return Err(NoMemory);
        };
        append(&mut own, globals);
        Ok(Memory {
            cells: own,
            numbers,
            waiting,
            globals: globals.len(),
            base: globals.len(),
            floor: 0,
        })
    }

    /// Pushes a number, into room that was made before.
    #[inline(always)]
    pub fn push(&mut self, n: i64)
        requires { length self.old.stack < self.old.space }
        ensures { self.new ≡ with_pushed n self.old }
    {
        self.numbers.push_reserved(n);
    }

    /// The topmost number of the active function, which is dropped.
    #[inline(always)]
    pub fn pop(&mut self) -> i64
        requires { 0 < length self.old.stack }
        ensures number { self.old ≡ with_pushed result self.new }
        ensures room { length self.new.stack < self.new.space }
    {
        self.numbers.take_last()
    }

    /// The topmost numbers of the active function, so many; the topmost is the last.
    pub fn top(&self, count: usize) -> &[i64]
        requires { count ≤ length self.now.stack }
        ensures { result.now ≡ reverse (take count self.now.stack) }
    {
        &self.numbers[self.numbers.len() - count..]
    }

    /// Drops so many numbers.
    pub fn drop_top(&mut self, count: usize)
        requires { count ≤ length self.old.stack }
        ensures { self.new ≡ with_dropped count self.old }
    {
        let rest = self.numbers.len() - count;
        self.numbers.truncate(rest);
    }

    /// A cell of the active function.
    #[inline(always)]
    pub fn local(&self, k: usize) -> i64
        requires { k < length self.now.frame }
        ensures { slice_get self.now.frame k ≡ Some result }
    {
        self.cells[self.base + k]
    }

    /// A global cell.
    #[inline(always)]
    pub fn global(&self, k: usize) -> i64
        requires { k < length self.now.globals }
        ensures { slice_get self.now.globals k ≡ Some result }
    {
        self.cells[k]
    }

    /// Puts a number into a cell of the active function.
    #[inline(always)]
    pub fn set_local(&mut self, k: usize, n: i64)
        requires { k < length self.old.frame }
        ensures { self.new ≡ with_local k n self.old }
    {
        self.cells[self.base + k] = n;
    }

    /// Puts a number into a global cell.
    #[inline(always)]
    pub fn set_global(&mut self, k: usize, n: i64)
        requires { k < length self.old.globals }
        ensures { self.new ≡ with_global k n self.old }
    {
        self.cells[k] = n;
    }

    /// Sets cells of the active function to 0, from this one on so many.
    pub fn clear(&mut self, from: usize, count: usize)
        requires { from + count ≤ length self.old.frame }
        ensures { self.new ≡ with_cleared from count self.old }
    {
        clear_range(&mut self.cells, self.base + from, count);
    }

    /// Gives the active function so many more cells, which are zeros, in room that was made before.
    pub fn extend(&mut self, count: usize)
        requires { count ≤ self.old.cell_room }
        ensures { self.new ≡ with_more count self.old }
    {
        append_zeros(&mut self.cells, count);
    }

    /// Drops the cells and numbers of the active function.
    pub fn restart(&mut self)
        ensures { self.new ≡ with_none self.old }
    {
        self.cells.truncate(self.base);
        self.numbers.truncate(self.floor);
    }

    /// Gives the active function one more cell with this number, in room that was made before.
    pub fn add_cell(&mut self, n: i64)
        requires { 0 < self.old.cell_room }
        ensures { self.new ≡ with_added (n ∷ []) self.old }
    {
        self.cells.push_reserved(n);
    }

    /// How many functions wait.
    #[inline(always)]
    pub fn depth(&self) -> usize
        ensures { result ≡ length self.now.frames }
    {
        self.waiting.len()
    }

    /// Enters a function that has so many cells: its arguments are the topmost numbers, which are dropped. The active
    /// function waits, and goes on at the place. All that was made room for before.
    pub fn enter(&mut self, place: u32, claimed: u32, count: usize, size: usize)
        requires arguments { count ≤ length self.old.stack }
        requires size { count ≤ size }
        requires cells { size ≤ self.old.cell_room }
        requires frames { 0 < self.old.frame_room }
        ensures { self.new ≡ with_entered place claimed count size self.old }
    {
        let start = self.cells.len();
        let first = self.numbers.len() - count;
        append(&mut self.cells, &self.numbers[first..]);
        append_zeros(&mut self.cells, size - count);
        self.numbers.truncate(first);
        self.waiting.push_reserved(Waiting {
            place,
            claimed,
            base: self.base,
            floor: self.floor,
        });
        self.base = start;
        self.floor = first;
    }

    /// Leaves the active function, whose numbers and cells are dropped. The one that waits is active again.
    #[inline(always)]
    pub fn leave(&mut self) -> Option<Waiting>
        ensures { Left self.old result self.new }
    {
        match self.waiting.pop() {
            None => None,
            Some(waiting) => {
                self.cells.truncate(self.base);
                self.numbers.truncate(self.floor);
                self.base = waiting.base;
                self.floor = waiting.floor;
                Some(waiting)
            }
        }
    }
}

ghost use Rattle.std.specs.Prelude.{◌++◌};

fn append(cells: &mut Vec<i64>, numbers: &[i64])
    requires { vec_len cells.old + length numbers.now ≤ vec_capacity cells.old }
    ensures items { cells.new.items ≡ cells.old.items ++ numbers.now }
    ensures len { vec_len cells.new ≡ vec_len cells.old + length numbers.now }
    ensures capacity { vec_capacity cells.new ≡ vec_capacity cells.old }
{
    for n in numbers {
        cells.push_reserved(*n);
    }
}

fn append_zeros(cells: &mut Vec<i64>, count: usize)
    requires { vec_len cells.old + count ≤ vec_capacity cells.old }
    ensures items { cells.new.items ≡ cells.old.items ++ replicate count (pos 0) }
    ensures len { vec_len cells.new ≡ vec_len cells.old + count }
    ensures capacity { vec_capacity cells.new ≡ vec_capacity cells.old }
{
    for _ in 0..count {
        cells.push_reserved(0);
    }
}

ghost use Rattle.std.specs.Prelude.{◌≡◌, ◌+◌, ◌≤◌, length, replicate, pos, vec_len, vec_capacity};
ghost use Rattle.cl_code.specs.Machine.{cleared};

fn clear_range(cells: &mut Vec<i64>, from: usize, count: usize)
    requires { from + count ≤ length cells.old.items }
    ensures items { cells.new.items ≡ cleared from count cells.old.items }
    ensures len { vec_len cells.new ≡ vec_len cells.old }
    ensures capacity { vec_capacity cells.new ≡ vec_capacity cells.old }
{
    zero(&mut cells[from..from + count]);
}

fn zero(cells: &mut [i64])
    ensures { cells.new ≡ replicate (length cells.old) (pos 0) }
{
    cells.fill(0);
}

//! What an engine does to print. (Limits: this project.)

ghost use Rattle.std.specs.Prelude.{◌≡◌, ◌-◌, ◌<◌, length, slice_get, Some};
ghost use Rattle.cl_code.specs.Plain.{plain_program};
ghost use Rattle.cl_vm.specs.Engine.{Shows};
ghost use Rattle.cl_vm.specs.Runs.{CanPrint};

use crate::output::{count_numbers, print_text};
use crate::{Engine, Flow};
use cl_code::Program;
use cl_value::Trap;

// The text of a format.
fn format_text(program: &Program, format: u32) -> &[u8]
    requires { format < length (plain_program program.now).formats }
    ensures { slice_get (plain_program program.now).formats format ≡ Some result.now }
{
    let parts = program.parts();
    parts.formats.at(format as usize).as_slice()
}

impl Engine {
    /// Prints the text of a format with the topmost numbers, or traps and prints nothing.
    pub(crate) fn show(&mut self, program: &Program, format: u32) -> Flow
        requires { CanPrint (plain_program program.now) format (record self.old { place = self.old.place - 1 }) }
        ensures { Shows (plain_program program.now) format self.old result self.new }
    {
        let text = format_text(program, format);
        let count = count_numbers(text);
        let done = print_text(&mut self.output, text, self.memory.top(count));
        if !done {
            return Flow::Stop(Trap::OutputLimit);
        }
        self.memory.drop_top(count);
        Flow::On
    }
}

ghost use Rattle.cl_translation.specs.Laws.{TheCodeDemandsTheSame, TheCodeRunsAlike};

use cl_cases::each_value_is_within_its_type;
use cl_code::{each_division_agrees, each_instruction_leads_on, each_process_is_right};
use cl_instances::{
    each_act_is_an_instance, each_request_is_an_instance, each_start_fits_its_program,
};
use cl_model::agreeing_meanings_run_alike;

/// A law of each valid program that is the code of a text: it demands what the text demands, of each process
/// that begins with arguments of the parameters' types and as it may, with any number of ticks, whatever it is
/// told that lies within its ranges. It does nothing.
pub fn the_code_demands_the_same()
    ensures demands { TheCodeDemandsTheSame }
{
    each_instruction_leads_on();
    each_process_is_right();
    each_division_agrees();
}

/// A law of each valid program that is the code of a text that was read from a source and has no faults: a
/// history is legal for the one where it is for the other, and a good run of the one is one of the other, of
/// each kind. It does nothing.
pub fn the_code_runs_alike()
    ensures runs { TheCodeRunsAlike }
{
    agreeing_meanings_run_alike();
    the_code_demands_the_same();
    each_value_is_within_its_type();
    each_act_is_an_instance();
    each_request_is_an_instance();
    each_start_fits_its_program();
}

use cl_value::{Request, Tuple};

/// What a world says of a tuple operation.
#[derive(Drop)]
pub enum Answer {
    /// The `out` or `eval` was done.
    Done,
    /// The operation took or read this tuple.
    Got(Tuple),
    /// Nothing matched the `inp` or `rdp`.
    Missed,
    /// The operation wasn't done, and the process goes no further: it waits, is stopped, or can't be recorded.
    Paused,
}

/// Where the tuple operations of a process are done.
pub trait World {
    ghost use Rattle.cl_value.specs.Views.{plain_request};
    ghost use Rattle.cl_walk.specs.Walks.{Said};
    ghost use Rattle.cl_walk.specs.Walked.{IsAnswered};
    ghost use Rattle.cl_walk.specs.Views.{reply_in};

    /// All that it was asked and answered, in order, and the request at which it paused last.
    ghost said: { Self → Said };

    /// Does the operation, whose answer must fit it, or pauses.
    fn ask(&mut self, request: Request) -> Answer
        ensures { IsAnswered (plain_request request) (reply_in result) (said self.old) (said self.new) };
}

use cl_value::{Template, Tuple, What};

/// An operation that looks for a tuple.
#[derive(Clone, Copy, Debug, PartialEq, Eq)]
pub enum Seeking {
    /// It takes the tuple, and waits where no tuple matches.
    In,
    /// It reads the tuple, and waits where no tuple matches.
    Rd,
    /// It takes the tuple, and misses where no tuple matches.
    Inp,
    /// It reads the tuple, and misses where no tuple matches.
    Rdp,
}

impl Seeking {
    ghost use Rattle.std.specs.Prelude.{◌≡◌};
    ghost use Rattle.cl_ground.specs.Room.{Room};
    ghost use Rattle.cl_value.specs.Views.{plain_what};
    ghost use Rattle.cl_alone.specs.Seekings.{hit};

    /// What was done where it found the tuple.
    pub fn hit(self, template: Template, tuple: Tuple) -> What
        ensures { plain_what result ≡ hit self template.items tuple.items }
    {
        match self {
            Seeking::In => What::In(template, tuple),
            Seeking::Rd => What::Rd(template, tuple),
            Seeking::Inp => What::InpHit(template, tuple),
            Seeking::Rdp => What::RdpHit(template, tuple),
        }
    }
}

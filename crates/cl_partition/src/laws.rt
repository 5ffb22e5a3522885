ghost use Rattle.cl_partition.specs.Apart.{InstancesNeverMatch, NeverMeet};
ghost use Rattle.cl_partition.specs.Unique.{PartitionsAreOne};

/// Laws: sets never meet, neither by tuples and templates of their signatures nor by requests that are
/// instances of them. They do nothing.
pub fn sets_never_meet()
    ensures apart { NeverMeet }
    ensures requests { InstancesNeverMatch }
{}

/// A law: sites have one partition. Whatever numbers part them into sets are the same. It does nothing.
pub fn partition_is_unique()
    ensures unique { PartitionsAreOne }
{}

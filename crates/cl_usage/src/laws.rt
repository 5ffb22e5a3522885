ghost use Rattle.cl_usage.specs.Laws.{EachFieldIsKeyed, EachRequestSuits, EachTupleMatches, InstancesSuit, ShapesAreStorable};

/// A law: in a set of class `Counter` or `Queue` each tuple matches each template. It does nothing.
pub fn each_tuple_matches()
    ensures matches { EachTupleMatches }
{}

/// Laws: a request that is an instance of its site's signature suits the shape of its set; and its site is
/// of a set. They do nothing.
pub fn each_request_suits()
    ensures suits { EachRequestSuits }
    ensures instances { InstancesSuit }
{}

/// A law: where each site has 1 to 16 fields, a set can be made of the shape of each set: it has as many
/// fields, under `Counter` literals alone, under `Keyed` a number or a character at the key. It does nothing.
pub fn each_shape_is_storable()
    ensures storable { ShapesAreStorable }
{}

/// A law: under `Keyed` each template has an actual at the key, and each tuple a number or a character
/// there. It does nothing.
pub fn each_field_is_keyed()
    ensures keyed { EachFieldIsKeyed }
{}

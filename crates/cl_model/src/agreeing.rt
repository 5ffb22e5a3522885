ghost use Rattle.cl_model.specs.Agree.{AgreeingRunAlike, GoodWhereAgreed};

/// Laws of two meanings. Where both demand the same of each process that stands after each history that is
/// legal for one of them, they have the same legal histories and the same good runs. A good run of one is
/// that of the other, where its history is legal for the other and both agree after it. It does nothing.
pub fn agreeing_meanings_run_alike()
    ensures alike { AgreeingRunAlike }
    ensures good { GoodWhereAgreed }
{}

ghost use Rattle.cl_cases.specs.Outlines.{StoresLeaveOutlines, ExpressionsLeaveOutlines, CallsLeaveOutlines, StatementsAddInside, StatementsLeaveOutlines, InnermostIsEntered, InnermostStays, ClaimedCellsAreInUse};
ghost use Rattle.cl_cases.specs.Places.{WhatIsThereIsMet, OutlinesTellPlaces, DeclaratorsLead, PlacesAreThere, ReadsAreThere, AssignmentsAreThere, FormalsAreThere};

/// Laws of each text, with faults or without, and of whatever its processes are told. No variable that stands
/// gets another name, another type or another number of values: not where a value is stored or formals are
/// filled, not where an expression is evaluated or a function is called. A statement may declare variables in
/// the innermost scope, and there is one wherever it runs; a block leaves none of them, nor does any statement
/// but a declaration where declarations stand in blocks. Where a function releases its cells, those that it
/// claimed are in use. It does nothing.
pub fn nothing_changes_an_outline()
    ensures stores { StoresLeaveOutlines }
    ensures expressions { ExpressionsLeaveOutlines }
    ensures calls { CallsLeaveOutlines }
    ensures statements { StatementsAddInside }
    ensures blocks { StatementsLeaveOutlines }
    ensures entered { InnermostIsEntered }
    ensures innermost { InnermostStays }
    ensures cells { ClaimedCellsAreInUse }
{}

/// Laws of the places of variables. A name that is in a scope is met as no unknown one, and a change by it is a
/// change of the variable that it stands for; what is stored at a place that is there is read there. Outlines
/// tell what is there. Behind the first declarators of a declaration what is known stands, as behind a
/// statement. Where no fault is noted in a place of a text its name is in a scope, and when the place is found
/// it is there: so where a value is read, where an assignment reads and stores, behind its right side too, and
/// where the formals of an operation get their values, one after another. It does nothing.
pub fn each_place_is_there()
    ensures met { WhatIsThereIsMet }
    ensures outlines { OutlinesTellPlaces }
    ensures behind { DeclaratorsLead }
    ensures places { PlacesAreThere }
    ensures reads { ReadsAreThere }
    ensures assignments { AssignmentsAreThere }
    ensures formals { FormalsAreThere }
{}

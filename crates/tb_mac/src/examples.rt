//! Runs of the definition that compute.

ghost use Rattle.tb_mac.specs.Examples.{AppliesToCircle, AppliesToNoList, AppliesToOne, Arithmetic, BoundsOfCall, CallPutsA, CellsHold, FullOrNot, GlobalsHold, NewStrings, NewVectorIsClean, ReadsEnd, ReadsOne, ReadsStatic, RestListInOrder, RestListTooShort, StartsWithStatics, StringHolds, StuckByName, TooFewOperands};

/// Calls, rest lists and lists of operands.
pub fn calls_compute()
    ensures call { CallPutsA }
    ensures rest_list { RestListInOrder }
    ensures short_list { RestListTooShort }
    ensures too_few { TooFewOperands }
    ensures applied { AppliesToOne }
    ensures no_list { AppliesToNoList }
    ensures circle { AppliesToCircle }
{}

/// Globals, cells, procedures, strings, vectors and static objects.
pub fn objects_compute()
    ensures globals { GlobalsHold }
    ensures cells { CellsHold }
    ensures strings { StringHolds }
    ensures new_strings { NewStrings }
    ensures clean { NewVectorIsClean }
    ensures statics { StartsWithStatics }
    ensures read { ReadsStatic }
{}

/// Input, arithmetic, requests that do not fit, and states without a next step.
pub fn edges_compute()
    ensures input { ReadsOne }
    ensures end { ReadsEnd }
    ensures arithmetic { Arithmetic }
    ensures full { FullOrNot }
    ensures stuck { StuckByName }
    ensures bounds { BoundsOfCall }
{}

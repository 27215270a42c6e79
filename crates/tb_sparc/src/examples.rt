//! Runs of the definition that compute.

ghost use Rattle.tb_sparc.specs.Examples.{BranchesAreDelayed, CallReturns, CodesAtTheEdges, DataWords, EventsAtStarts, ProductsAndQuotients, Services, TagsOverflow};

/// Transfers, and states without a next step.
pub fn transfers_compute()
    ensures branches { BranchesAreDelayed }
    ensures calls { CallReturns }
{}

/// Operations, and the condition codes.
pub fn operations_compute()
    ensures codes { CodesAtTheEdges }
    ensures tags { TagsOverflow }
    ensures products { ProductsAndQuotients }
{}

/// The data, the services, and the events.
pub fn services_compute()
    ensures data_words { DataWords }
    ensures services { Services }
    ensures events { EventsAtStarts }
{}

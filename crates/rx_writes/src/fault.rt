ghost use Rattle.std.specs.Prelude.{◌≡◌};
ghost use Rattle.rx_writes.specs.Faults.{of_line, of_schema, of_query, of_value, of_update, of_veto};
ghost use Rattle.rx_writes.specs.Faults.{of_step, of_document};
ghost use Rattle.rx_writes.specs.declared.fault.Fault.TheVariants.{Memory};

use rx_query::QueryFault;
use rx_reply::{DocumentFault, Refusal};
use rx_schema::SchemaFault;
use rx_script::LineFault;
use rx_update::{UpdateFault, VetoFault};
use rx_value::ValueFault;
use rx_world::StepFault;
use std::alloc::{AllocError, AllocFailed};

/// Why a line does nothing.
#[derive(Debug, Drop)]
pub enum Fault {
    Refused(Refusal),
    Memory,
}

/// A fault of the only document.
pub(crate) fn of_document(fault: DocumentFault) -> Fault
    ensures { result ≡ of_document fault }
{
    Fault::Refused(Refusal::Document { fault, row: None })
}

impl From<LineFault> for Fault {
    ghost from_gives = { λ f e. e ≡ of_line f };

    fn from(fault: LineFault) -> Fault {
        match fault {
            LineFault::Memory => Fault::Memory,
            fault => Fault::Refused(Refusal::Line(fault)),
        }
    }
}

impl From<SchemaFault> for Fault {
    ghost from_gives = { λ f e. e ≡ of_schema f };

    fn from(fault: SchemaFault) -> Fault {
        match fault {
            SchemaFault::Memory => Fault::Memory,
            fault => Fault::Refused(Refusal::Schema(fault)),
        }
    }
}

impl From<QueryFault> for Fault {
    ghost from_gives = { λ f e. e ≡ of_query f };

    fn from(fault: QueryFault) -> Fault {
        match fault {
            QueryFault::Memory => Fault::Memory,
            fault => Fault::Refused(Refusal::Query(fault)),
        }
    }
}

impl From<ValueFault> for Fault {
    ghost from_gives = { λ f e. e ≡ of_value f };

    fn from(fault: ValueFault) -> Fault {
        match fault {
            ValueFault::Memory => Fault::Memory,
            fault => of_document(DocumentFault::Fields(fault)),
        }
    }
}

impl From<UpdateFault> for Fault {
    ghost from_gives = { λ f e. e ≡ of_update f };

    fn from(fault: UpdateFault) -> Fault {
        match fault {
            UpdateFault::Memory => Fault::Memory,
            fault => Fault::Refused(Refusal::Update(fault)),
        }
    }
}

impl From<VetoFault> for Fault {
    ghost from_gives = { λ f e. e ≡ of_veto f };

    fn from(fault: VetoFault) -> Fault {
        match fault {
            VetoFault::Vetoed(hook) => Fault::Refused(Refusal::Vetoed { hook, row: None }),
            VetoFault::Memory => Fault::Memory,
        }
    }
}

impl From<StepFault> for Fault {
    ghost from_gives = { λ f e. e ≡ of_step f };

    fn from(fault: StepFault) -> Fault {
        match fault {
            StepFault::Memory => Fault::Memory,
            StepFault::ClockEnd => Fault::Refused(Refusal::Clock),
        }
    }
}

impl From<AllocError> for Fault {
    ghost from_gives = { λ _ e. e ≡ Memory };

    fn from(_refused: AllocError) -> Fault {
        Fault::Memory
    }
}

impl<T: Drop> From<AllocFailed<T>> for Fault {
    ghost from_gives = { λ _ e. e ≡ Memory };

    fn from(_refused: AllocFailed<T>) -> Fault {
        Fault::Memory
    }
}

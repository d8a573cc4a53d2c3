// Faults of parts.

ghost use Rattle.std.specs.Prelude.{◌≡◌};

use fault_words::Fault;
use schema_plans::SchemaFault;
use seed_rows::SeedFault;
use std::alloc::AllocError;
use tenant_sessions::SessionFault;
use tenant_units::UnitFault;
use thiserror::Error;

/// Why a tenant isn't deployed.
#[derive(Debug, Drop, Error)]
pub enum FrontFault {
    /// The first fault: of the schema, of its rules, of the users of sessions, of the texts of units, of their code, of the
    /// seed.
    #[error("a tenant has a fault")]
    Wrong(Fault),
    /// Memory was refused.
    #[error("no memory")]
    NoMemory,
}

impl From<AllocError> for FrontFault {
    ghost use Rattle.std.specs.Prelude.{◌≡◌};
    ghost use Rattle.tenant_front.specs.declared.fault.FrontFault.TheVariants.{NoMemory};

    ghost from_gives = { λ _ e. e ≡ NoMemory };

    fn from(_: AllocError) -> FrontFault {
        FrontFault::NoMemory
    }
}

impl From<SchemaFault> for FrontFault {
    ghost use Rattle.std.specs.Prelude.{◌≡◌};
    ghost use Rattle.tenant_front.specs.Faults.{of_schema};

    ghost from_gives = { λ fault e. e ≡ of_schema fault };

    fn from(fault: SchemaFault) -> FrontFault {
        match fault {
            SchemaFault::Wrong(fault) => FrontFault::Wrong(fault),
            SchemaFault::NoMemory => FrontFault::NoMemory,
        }
    }
}

impl From<SessionFault> for FrontFault {
    ghost use Rattle.std.specs.Prelude.{◌≡◌};
    ghost use Rattle.tenant_front.specs.Faults.{of_sessions};

    ghost from_gives = { λ fault e. e ≡ of_sessions fault };

    fn from(fault: SessionFault) -> FrontFault {
        match fault {
            SessionFault::Wrong(fault) => FrontFault::Wrong(fault),
            SessionFault::NoMemory => FrontFault::NoMemory,
        }
    }
}

impl From<UnitFault> for FrontFault {
    ghost use Rattle.std.specs.Prelude.{◌≡◌};
    ghost use Rattle.tenant_front.specs.Faults.{of_units};

    ghost from_gives = { λ fault e. e ≡ of_units fault };

    fn from(fault: UnitFault) -> FrontFault {
        match fault {
            UnitFault::Wrong(fault) => FrontFault::Wrong(fault),
            UnitFault::NoMemory => FrontFault::NoMemory,
        }
    }
}

impl From<SeedFault> for FrontFault {
    ghost use Rattle.std.specs.Prelude.{◌≡◌};
    ghost use Rattle.tenant_front.specs.Faults.{of_seed};

    ghost from_gives = { λ fault e. e ≡ of_seed fault };

    fn from(fault: SeedFault) -> FrontFault {
        match fault {
            SeedFault::Wrong(fault) => FrontFault::Wrong(fault),
            SeedFault::NoMemory => FrontFault::NoMemory,
        }
    }
}

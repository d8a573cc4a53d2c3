// One row of each table, by hand, and one failing statement.

use super::*;
use apex_num::{Id, Text, read_id};
use apex_requests::Op;
use std::alloc::AllocError;
use std::test::Fail;

fn id() -> Result<Id, AllocError> {
    match read_id(b"001D000000IqhSL") {
        Some(id) => Ok(id),
        None => Err(AllocError),
    }
}

#[test]
fn exceptions(rt: HostRuntime) -> Result<(), Fail> {
    let alloc = rt.alloc();
    let outside = Thrown::OutOfBounds(-1);
    assert_eq!(rt; outside.class().name(), "ListException");
    assert_eq!(rt;
        outside.message(alloc)?.as_str(),
        "List index out of bounds: -1"
    );
    let twice = Thrown::DuplicateId(id()?);
    assert_eq!(rt;
        twice.message(alloc)?.as_str(),
        "Duplicate id in list: 001D000000IqhSLIAZ"
    );
    Ok(())
}

#[test]
fn fields(rt: HostRuntime) -> Result<(), Fail> {
    let alloc = rt.alloc();
    let object = Text::from_str(alloc, "Account")?;
    let field = Text::from_str(alloc, "Name")?;
    let message = Thrown::NotQueried(object, field).message(alloc)?;
    assert_eq!(rt;
        message.as_str(),
        "SObject row was retrieved via SOQL without querying the requested field: Account.Name"
    );
    Ok(())
}

#[test]
fn statements(rt: HostRuntime) -> Result<(), Fail> {
    let alloc = rt.alloc();
    let error = RecordError::Required(Text::from_str(alloc, "Name")?);
    let message = Thrown::Dml(Op::Upsert, 2, error).message(alloc)?;
    assert_eq!(rt;
        message.as_str(),
        "Upsert failed. First exception on row 2; first error: REQUIRED_FIELD_MISSING, required: Name"
    );
    Ok(())
}

#[test]
fn triggers(rt: HostRuntime) -> Result<(), Fail> {
    let alloc = rt.alloc();
    let trigger = Text::from_str(alloc, "T")?;
    let class = Text::from_str(alloc, "MathException")?;
    let error = RecordError::InTrigger(trigger, class, Text::from_str(alloc, "Divide by 0")?);
    let told = error.save_error(alloc)?;
    assert_eq!(rt; told.code.as_str(), "CANNOT_INSERT_UPDATE_ACTIVATE_ENTITY");
    assert_eq!(rt; told.message.as_str(), "T: MathException: Divide by 0");
    Ok(())
}

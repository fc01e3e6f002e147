ghost use Rattle.serde_json.specs.View.{view as data_of};
ghost use Rattle.ig_info.specs.Whole.{parsed};
ghost use Rattle.ig_record.specs.Answers.{Gives};

use crate::RecordError;
use crate::error::bad_record;
use serde_json::Value;
use std::alloc::Global;

/// The JSON value of the bytes.
pub(crate) fn parse(alloc: Global, bytes: &[u8]) -> Result<Value, RecordError>
    ensures { Gives data_of result (parsed bytes.now) }
{
    match Value::from_slice(alloc, bytes) {
        Ok(value) => Ok(value),
        Err(error) => if error.is_memory() {
            Err(RecordError::Memory)
        } else {
            Err(bad_record(alloc))
        },
    }
}

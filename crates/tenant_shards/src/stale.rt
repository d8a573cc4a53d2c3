// The comparison of a log with the rows as they are.

ghost use Rattle.std.specs.Prelude.{◌≡◌, length, IfOk};
ghost use Rattle.record_store.specs.Heaps.{rows_in};
ghost use Rattle.tenant_shards.specs.Logs as logs;

use crate::log::Log;
use crate::same::same_answer;
use apex_num::NoMemory;
use record_store::Store;

/// The place of the first question of a log to which a tenant's rows answer something else now.
pub fn first_stale(store: &mut Store, tenant: usize, log: &Log) -> Result<Option<usize>, NoMemory>
    requires { length log.now.asked ≡ length log.now.answers }
    ensures tells { IfOk result (logs.Tells (rows_in tenant store.old.tenants) log.now) }
    ensures same { store.new.tenants ≡ store.old.tenants }
{
    let asked = log.asked.as_slice();
    let answers = log.answers.as_slice();
    'asked: for k in 0..asked.len() {
        let answer = store.answer(tenant, &asked[k])?;
        if !same_answer(&answers[k], &answer) {
            return Ok(Some(k));
        }
    }
    Ok(None)
}

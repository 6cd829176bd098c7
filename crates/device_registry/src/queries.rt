//! The registry's calls of the database, one statement each. `look_up` and `list_devices` first compile their
//! statement, which fails on a closed connection. The count of the others and the writes require an open connection,
//! which an earlier look-up has shown: nothing is known about the writes of a closed one.
ghost use Rattle.std.specs.Prelude.{◌≡◌, [], ◌∷◌, map, pos, false, is_some, Ok, IsTrue, OnOk, OnErr, IfOk, IfErr};
ghost use Rattle.std.specs.FinMap.{insert, get};
ghost use Rattle.sqlite.specs.declared.types.Value.TheVariants.{Int};
ghost use Rattle.sqlite.specs.State.{HasCleanDisk, IsUnchanged, Survives, Executes, CommitsBy};
ghost use Rattle.sqlite.specs.State.{Shown, FailsToQuery, CommitsShowing};
ghost use Rattle.learned_devices.specs.CommitCounts.{with_one_more};
ghost use Rattle.learned_devices.specs.Devices.{Devices, DeviceUpdate, apply_update, forget_update, device_data};
ghost use Rattle.learned_devices.specs.Devices.{is_full_for, devices_by_ascending_id, device_of};
ghost use Rattle.device_registry.specs.Table.{upsert_sql, delete_sql, rewrite_version_sql};
ghost use Rattle.device_registry.specs.Queries.{is_select};
ghost use Rattle.device_registry.specs.Stored.{HoldsVersion2};
ghost use Rattle.device_registry.specs.Opening.{KeepsDatabaseIfStillOpen};
ghost use Rattle.device_registry.specs.Ready.{IsReadyWith, IsReady, IsReadyIfOpen, WritesNothing, CommitsOrMayBeLeft};
ghost use Rattle.device_registry.specs.Ready.{KeepsRows};
ghost use Rattle.device_registry.specs.Table.Rows.{IsDeviceOrNone, shown_device, upsert_params};

use crate::sql_connection::SqlConnection;
use crate::table::row_codec::{shown_count, upsert_params};
use crate::table::statements::{COUNT_OTHERS, DELETE, FIND, FIND_ALL, REWRITE_VERSION, UPSERT};
use learned_devices::{Device, MAX_DEVICES};
use sqlite::{Error, Row, Statement, params};

// Compiles a statement, which writes nothing. Fails on a connection that a failure has closed.
fn compile<C: SqlConnection>(conn: &mut C, sql: &str) -> Result<Statement, Error>
    requires { IsReadyIfOpen (C.state conn.old) }
    ensures text { HasCleanDisk (C.state conn.new) → IfOk result (λ statement. statement.text ≡ sql.now) }
    ensures stays { WritesNothing (C.state conn.old) (C.state conn.new) }
    ensures same { HasCleanDisk (C.state conn.new) → OnOk result (IsUnchanged (C.state conn.old) (C.state conn.new)) }
    ensures survives { Survives (C.state conn.old) (C.state conn.new) (λ _. ⊥) }
    ensures ready { HasCleanDisk (C.state conn.new) → OnOk result (IsReady (C.state conn.new)) }
    ensures counted { C.commits conn.new ≡ C.commits conn.old }
{
    conn.prepare(sql)
}

// The rows that a query for one sender shows.
fn query_with_id<C: SqlConnection>(conn: &mut C, sql: &str, id: u32) -> Result<Vec<Row>, Error>
    ensures shown { HasCleanDisk (C.state conn.new) → IfOk result
        (λ rows. Shown sql.now (Int (pos id) ∷ []) (C.state conn.old) (C.state conn.new) rows.items) }
    ensures failed { HasCleanDisk (C.state conn.new) →
        IfErr result (FailsToQuery sql.now (Int (pos id) ∷ []) (C.state conn.old) (C.state conn.new)) }
    ensures survives { Survives (C.state conn.old) (C.state conn.new)
        (CommitsShowing sql.now (Int (pos id) ∷ []) (C.state conn.old)) }
    ensures counted { IsTrue (is_select sql.now) → C.commits conn.new ≡ C.commits conn.old }
{
    conn.query_all(sql, params![i64::from(id)])
}

// The rows that a compiled query for one sender shows.
fn query_compiled_with_id<C: SqlConnection>(
    conn: &mut C,
    statement: &Statement,
    id: u32,
) -> Result<Vec<Row>, Error>
    ensures shown { HasCleanDisk (C.state conn.new) → IfOk result
        (λ rows. Shown statement.now.text (Int (pos id) ∷ []) (C.state conn.old)
        (C.state conn.new) rows.items) }
    ensures failed { HasCleanDisk (C.state conn.new) →
        IfErr result (FailsToQuery statement.now.text (Int (pos id) ∷ []) (C.state conn.old)
        (C.state conn.new)) }
    ensures survives { Survives (C.state conn.old) (C.state conn.new)
        (CommitsShowing statement.now.text (Int (pos id) ∷ []) (C.state conn.old)) }
    ensures counted { IsTrue (is_select statement.now.text) → C.commits conn.new ≡ C.commits conn.old }
{
    conn.query_all_prepared(statement, params![i64::from(id)])
}

// The rows of a sender.
pub(crate) fn look_up<C: SqlConnection>(conn: &mut C, id: u32) -> Result<Vec<Row>, Error>
    requires { IsReadyIfOpen (C.state conn.old) }
    ensures stays { WritesNothing (C.state conn.old) (C.state conn.new) }
    ensures same { HasCleanDisk (C.state conn.new) → OnOk result (IsUnchanged (C.state conn.old) (C.state conn.new)) }
    ensures survives { Survives (C.state conn.old) (C.state conn.new) (λ _. ⊥) }
    ensures found { HasCleanDisk (C.state conn.new) → IfOk result (λ rows. IsReady (C.state conn.new) ×
        ((devices : Devices) → IsReadyWith (C.state conn.old) devices
        → IsDeviceOrNone (device_of devices id) rows.items)) }
    ensures counted { HasCleanDisk (C.state conn.new) → C.commits conn.new ≡ C.commits conn.old }
{
    let find = compile(conn, FIND)?;
    query_compiled_with_id(conn, &find, id)
}

// Whether the registry is full for a sender.
pub(crate) fn is_full_for<C: SqlConnection>(conn: &mut C, id: u32) -> Result<bool, Error>
    requires { HasCleanDisk (C.state conn.old) → IsReady (C.state conn.old) }
    ensures stays { WritesNothing (C.state conn.old) (C.state conn.new) }
    ensures full { HasCleanDisk (C.state conn.new) → IfOk result (λ full. IsReady (C.state conn.new) ×
        ((devices : Devices) → IsReadyWith (C.state conn.old) devices → full ≡ is_full_for devices id)) }
    ensures counted { C.commits conn.new ≡ C.commits conn.old }
{
    let rows = query_with_id(conn, COUNT_OTHERS, id)?;
    Ok(shown_count(&rows)? >= MAX_DEVICES as u64)
}

// The rows of all devices, by ascending ID.
pub(crate) fn list_devices<C: SqlConnection>(conn: &mut C) -> Result<Vec<Row>, Error>
    requires { IsReadyIfOpen (C.state conn.old) }
    ensures stays { WritesNothing (C.state conn.old) (C.state conn.new) }
    ensures all { HasCleanDisk (C.state conn.new) → IfOk result (λ rows. IsReady (C.state conn.new) ×
        ((devices : Devices) → IsReadyWith (C.state conn.old) devices
        → map shown_device rows.items ≡ devices_by_ascending_id devices)) }
    ensures counted { HasCleanDisk (C.state conn.new) → C.commits conn.new ≡ C.commits conn.old }
{
    let all = compile(conn, FIND_ALL)?;
    conn.query_all_prepared(&all, &[])
}

// Upserts a device; implements any update whose result is `device`.
pub(crate) fn upsert<C: SqlConnection>(conn: &mut C, device: Device) -> Result<usize, Error>
    requires ready { HasCleanDisk (C.state conn.old) → IsReady (C.state conn.old) }
    requires room { HasCleanDisk (C.state conn.old) → (devices : Devices) → IsReadyWith
        (C.state conn.old) devices → is_full_for devices device.id ≡ false }
    ensures turns { (update : DeviceUpdate) → (HasCleanDisk (C.state conn.old) → (devices : Devices) → IsReadyWith
        (C.state conn.old) devices → apply_update devices update ≡ insert devices device.id (device_data device))
        → CommitsOrMayBeLeft (C.state conn.old) (C.state conn.new) update result }
    ensures written { HasCleanDisk (C.state conn.new) → IfOk result (λ count. Executes upsert_sql
        (upsert_params device.id (device_data device)) (C.state conn.old) (C.state conn.new) (Ok count)) }
    ensures counted { C.commits conn.new ≡ with_one_more (C.commits conn.old) }
{
    conn.execute(UPSERT, &upsert_params(&device))
}

fn run_delete<C: SqlConnection>(conn: &mut C, id: i64) -> Result<usize, Error>
    ensures runs { HasCleanDisk (C.state conn.new) → Executes delete_sql (Int id ∷ [])
        (C.state conn.old) (C.state conn.new) result }
    ensures survives { Survives (C.state conn.old) (C.state conn.new)
        (CommitsBy delete_sql (Int id ∷ []) (C.state conn.old)) }
    ensures counted { C.commits conn.new ≡ with_one_more (C.commits conn.old) }
{
    conn.execute(DELETE, params![id])
}

// Deletes the device of a sender.
fn forget<C: SqlConnection>(conn: &mut C, id: u32) -> Result<usize, Error>
    requires { HasCleanDisk (C.state conn.old) → IsReady (C.state conn.old) }
    ensures turns { CommitsOrMayBeLeft (C.state conn.old) (C.state conn.new) (forget_update id) result }
    ensures counted { C.commits conn.new ≡ with_one_more (C.commits conn.old) }
{
    run_delete(conn, i64::from(id))
}

// Rewrites the version row unchanged, so that an update without effect commits too.
pub(crate) fn rewrite_version<C: SqlConnection>(conn: &mut C) -> Result<usize, Error>
    requires { HasCleanDisk (C.state conn.old) → IsReady (C.state conn.old) }
    ensures runs { HasCleanDisk (C.state conn.new) → Executes rewrite_version_sql [] (C.state conn.old)
        (C.state conn.new) result }
    ensures renewed { HasCleanDisk (C.state conn.new) → OnOk result ((devices : Devices) → IsReadyWith
        (C.state conn.old) devices → IsReadyWith (C.state conn.new) devices) }
    ensures crash { Survives (C.state conn.old) (C.state conn.new) (λ trees. (devices : Devices) →
        IsReadyWith (C.state conn.old) devices → HoldsVersion2 trees devices) }
    ensures rows { HasCleanDisk (C.state conn.new) → OnOk result (IsReady (C.state conn.old) →
        KeepsRows (C.state conn.old) (C.state conn.new)) }
    ensures remains { HasCleanDisk (C.state conn.new) → OnErr result (KeepsDatabaseIfStillOpen (C.state conn.old)
        (C.state conn.new)) }
    ensures turns { (update : DeviceUpdate) → (HasCleanDisk (C.state conn.old) → (devices : Devices) → IsReadyWith
        (C.state conn.old) devices → apply_update devices update ≡ devices)
        → CommitsOrMayBeLeft (C.state conn.old) (C.state conn.new) update result }
    ensures counted { C.commits conn.new ≡ with_one_more (C.commits conn.old) }
{
    conn.execute(REWRITE_VERSION, &[])
}

// Deletes the device of a sender if it is known. Commits also if it is not.
pub(crate) fn delete_or_rewrite_if_absent<C: SqlConnection>(
    conn: &mut C,
    id: u32,
    is_known: bool,
) -> Result<usize, Error>
    requires ready { HasCleanDisk (C.state conn.old) → IsReady (C.state conn.old) }
    requires known { HasCleanDisk (C.state conn.old) → (devices : Devices) → IsReadyWith (C.state conn.old) devices →
        is_known ≡ is_some (get devices id) }
    ensures turns { CommitsOrMayBeLeft (C.state conn.old) (C.state conn.new) (forget_update id) result }
    ensures written { HasCleanDisk (C.state conn.new) → is_known ≡ false
        → IfOk result (λ count. Executes rewrite_version_sql []
        (C.state conn.old) (C.state conn.new) (Ok count)) }
    ensures counted { C.commits conn.new ≡ with_one_more (C.commits conn.old) }
{
    if is_known {
        return forget(conn, id);
    }
    rewrite_version(conn)
}

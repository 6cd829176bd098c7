//! The registry's interface to a connection of SQLite.
ghost use Rattle.std.specs.Prelude.{◌≡◌, ℕ, false, not, Option, IsTrue, IfOk, IfErr, OnOk, OnErr};
ghost use Rattle.std.specs.FinMap.{empty};
ghost use Rattle.sqlite.specs.Values.{bound};
ghost use Rattle.sqlite.specs.Effect.{IsDatabase};
ghost use Rattle.sqlite.specs.State.{State, HasCleanDisk, Survives, IsUnchanged, IsLive, IsNotRun};
ghost use Rattle.sqlite.specs.State.{Executes, CommitsBy, Shown, FailsToQuery, CommitsShowing};
ghost use Rattle.sqlite_trees.specs.Tree.{Trees};
ghost use Rattle.device_registry.specs.declared.table.Version.TheVariants.{First};
ghost use Rattle.learned_devices.specs.CommitCounts.{with_one_more};
ghost use Rattle.learned_devices.specs.Devices.{Devices};
ghost use Rattle.device_registry.specs.Queries.{is_select};
ghost use Rattle.device_registry.specs.Stored.{IsRegistry, IsRegistryOfVersion, HoldsVersion2};
ghost use Rattle.device_registry.specs.Ready.{IsReadyWith, KeepsOtherTables};
ghost use Rattle.device_registry.specs.Opening.{KeepsDatabaseIfStillOpen};
ghost use Rattle.device_registry.specs.SchemaChecks.{admits_tables};

use crate::{create, migrate};
use sqlite::types::ValueRef;
use sqlite::{Alter, Connection, Error, Row, Statement};
use sqlite_schema::schema::Schema;

/// The operations that the registry needs of a connection: calls of `sqlite::Connection` and of its statements, with
/// their contracts, and two of the registry's own, `create_tables` and `migrate_tables`.
pub trait SqlConnection {
    /// The state: what the connection shows, what is committed, and what a crash may leave.
    ghost state: { Self → State };

    /// How many calls that may commit were made so far, if the connection counts them. A text with RETURNING may commit
    /// even if it is run as a query: after a query that is no SELECT, nothing is known about the count.
    ghost commits: { Self → Option ℕ };

    /// Whether no transaction is open.
    fn is_autocommit(&self) -> bool
        ensures value { result ≡ not (state self.now).in_transaction }
        ensures settled { IsTrue result → IsTrue (state self.now).is_open →
            (state self.now).now ≡ (state self.now).committed };

    /// The schema of the database.
    fn schema(&self) -> &Schema
        ensures value { result.now ≡ (state self.now).now.schema }
        ensures live { IsLive (state self.now) };

    /// Compiles a statement.
    fn prepare(&mut self, sql: &str) -> Result<Statement, Error>
        ensures ok { HasCleanDisk (state self.new) → IfOk result (λ s. (s.text ≡ sql.now)
            × IsUnchanged (state self.old) (state self.new)) }
        ensures err { HasCleanDisk (state self.new) → IfErr result (λ e. (params : _) →
            IsNotRun (state self.old) (state self.new) sql.now params e) }
        ensures mode { (state self.old).in_transaction ≡ false → (state self.new).in_transaction ≡ false }
        ensures survives { Survives (state self.old) (state self.new) (λ _. ⊥) }
        ensures counted { commits self.new ≡ commits self.old };

    /// Runs a statement that shows no rows.
    fn execute(&mut self, sql: &str, params: &[ValueRef<'_>]) -> Result<usize, Error>
        ensures runs { HasCleanDisk (state self.new) → Executes sql.now (bound params.now) (state self.old)
            (state self.new) result }
        ensures survives { Survives (state self.old) (state self.new)
            (CommitsBy sql.now (bound params.now) (state self.old)) }
        ensures counted { commits self.new ≡ with_one_more (commits self.old) };

    /// The rows that a query shows.
    fn query_all(&mut self, sql: &str, params: &[ValueRef<'_>]) -> Result<Vec<Row>, Error>
        ensures ok { HasCleanDisk (state self.new) → IfOk result (λ rows. Shown sql.now (bound params.now)
            (state self.old) (state self.new) rows.items) }
        ensures err { HasCleanDisk (state self.new) → IfErr result (FailsToQuery sql.now (bound params.now)
            (state self.old) (state self.new)) }
        ensures mode { (state self.old).in_transaction ≡ false → (state self.new).in_transaction ≡ false }
        ensures survives { Survives (state self.old) (state self.new)
            (CommitsShowing sql.now (bound params.now) (state self.old)) }
        ensures counted { IsTrue (is_select sql.now) → commits self.new ≡ commits self.old };

    /// The rows that a compiled query shows.
    fn query_all_prepared(
        &mut self,
        statement: &Statement,
        params: &[ValueRef<'_>],
    ) -> Result<Vec<Row>, Error>
        ensures ok { HasCleanDisk (state self.new) → IfOk result (λ rows. Shown statement.now.text (bound params.now)
            (state self.old) (state self.new) rows.items) }
        ensures err { HasCleanDisk (state self.new) → IfErr result (FailsToQuery statement.now.text (bound params.now)
            (state self.old) (state self.new)) }
        ensures survives { Survives (state self.old) (state self.new)
            (CommitsShowing statement.now.text (bound params.now) (state self.old)) }
        ensures counted { IsTrue (is_select statement.now.text) → commits self.new ≡ commits self.old };

    /// Creates the two tables, in a database in which nothing has their names, in one transaction.
    fn create_tables(&mut self) -> Result<(), Error>
        requires idle { (state self.old).in_transaction ≡ false }
        requires clear { HasCleanDisk (state self.old) → IsTrue (admits_tables (state self.old).now.schema) ×
            IsDatabase (state self.old).now }
        ensures made { HasCleanDisk (state self.new) → OnOk result (IsReadyWith (state self.new) empty) }
        ensures others { HasCleanDisk (state self.new) → OnOk result (KeepsOtherTables (state self.old).now
            (state self.new).now) }
        ensures crash { Survives (state self.old) (state self.new) (λ trees. HoldsVersion2 trees empty) }
        ensures remains { HasCleanDisk (state self.new)
            → OnErr result (KeepsDatabaseIfStillOpen (state self.old) (state self.new)) }
        ensures counted { commits self.new ≡ with_one_more (commits self.old) };

    /// Migrates the tables of a registry of version 1 to version 2, in one transaction.
    fn migrate_tables(&mut self) -> Result<(), Error>
        requires idle { (state self.old).in_transaction ≡ false }
        requires first { HasCleanDisk (state self.old) → IsRegistry First (state self.old).now ×
            IsDatabase (state self.old).now }
        ensures made { HasCleanDisk (state self.new) → OnOk result ((devices : Devices) →
            IsRegistryOfVersion First (state self.old).now devices → IsReadyWith (state self.new) devices) }
        ensures others { HasCleanDisk (state self.new) → OnOk result (KeepsOtherTables (state self.old).now
            (state self.new).now) }
        ensures crash { Survives (state self.old) (state self.new) (λ trees. (devices : Devices) →
            IsRegistryOfVersion First (state self.old).now devices → HoldsVersion2 trees devices) }
        ensures remains { HasCleanDisk (state self.new)
            → OnErr result (KeepsDatabaseIfStillOpen (state self.old) (state self.new)) }
        ensures counted { commits self.new ≡ with_one_more (commits self.old) };

    /// While the connection is open, a crash leaves what is committed.
    ghost settled: { (s : Self) (trees : Trees) → IsTrue (state s).is_open → (state s).may_leave trees
        → trees ≡ (state s).committed.trees };
}

impl<S: Alter> SqlConnection for Connection<S> {
    ghost use Rattle.sqlite.specs.Held.{state};
    ghost use Rattle.device_registry.specs.Holding.{uncounted};

    ghost state = { state S.Store };

    ghost commits = { uncounted };

    fn is_autocommit(&self) -> bool {
        Connection::is_autocommit(self)
    }

    fn schema(&self) -> &Schema {
        Connection::schema(self)
    }

    fn prepare(&mut self, sql: &str) -> Result<Statement, Error> {
        Connection::prepare(self, sql)
    }

    fn execute(&mut self, sql: &str, params: &[ValueRef<'_>]) -> Result<usize, Error> {
        Connection::execute(self, sql, params)
    }

    fn query_all(&mut self, sql: &str, params: &[ValueRef<'_>]) -> Result<Vec<Row>, Error> {
        Connection::query_all(self, sql, params)
    }

    fn query_all_prepared(
        &mut self,
        statement: &Statement,
        params: &[ValueRef<'_>],
    ) -> Result<Vec<Row>, Error> {
        statement.query_all(self, params)
    }

    fn create_tables(&mut self) -> Result<(), Error> {
        create::create_registry(self)
    }

    fn migrate_tables(&mut self) -> Result<(), Error> {
        migrate::migrate(self)
    }

    ghost settled = { λ s. S.Store.settled s.store };
}

//! A connection that counts its commits, and a registry over it.
use super::fixtures::{NewConnection, known_contact, known_sensor};
use super::test_steps::{BulkStep, TestStep, perform_all};
use crate::{RegistryOver, SqlConnection};
use sqlite::types::ValueRef;
use sqlite::{Connection, Error, MemStore, Row, Statement};
use sqlite_schema::schema::Schema;
use std::alloc::Global;
use std::process::Abort;
use std::test::Fail;

// A connection, and how many of its calls may have committed. It does not count queries: each that the registry makes
// is a SELECT.
#[derive(Drop)]
struct CountingConnection<C> {
    conn: C,
    commits: u64,
}

impl<C: SqlConnection> SqlConnection for CountingConnection<C> {
    ghost use Rattle.std.specs.Prelude.{Some};

    ghost state = { λ counting. C.state counting.conn };

    ghost commits = { λ counting. Some counting.commits };

    fn is_autocommit(&self) -> bool {
        self.conn.is_autocommit()
    }

    fn schema(&self) -> &Schema {
        self.conn.schema()
    }

    fn prepare(&mut self, sql: &str) -> Result<Statement, Error> {
        self.conn.prepare(sql)
    }

    fn execute(&mut self, sql: &str, params: &[ValueRef<'_>]) -> Result<usize, Error> {
        self.commits = self.commits.saturating_add(1);
        self.conn.execute(sql, params)
    }

    fn query_all(&mut self, sql: &str, params: &[ValueRef<'_>]) -> Result<Vec<Row>, Error> {
        self.conn.query_all(sql, params)
    }

    fn query_all_prepared(
        &mut self,
        statement: &Statement,
        params: &[ValueRef<'_>],
    ) -> Result<Vec<Row>, Error> {
        self.conn.query_all_prepared(statement, params)
    }

    fn create_tables(&mut self) -> Result<(), Error> {
        self.commits = self.commits.saturating_add(1);
        self.conn.create_tables()
    }

    fn migrate_tables(&mut self) -> Result<(), Error> {
        self.commits = self.commits.saturating_add(1);
        self.conn.migrate_tables()
    }

    ghost settled = { λ counting. C.settled counting.conn };
}

// A new registry over a connection that counts.
fn counted_registry(
    alloc: Global,
) -> Result<RegistryOver<CountingConnection<Connection<MemStore>>>, Fail> {
    let conn = MemStore::new_connection(alloc)?;
    if !conn.is_autocommit() {
        return Err(Fail::from("a transaction is open"));
    }
    match RegistryOver::open_with(alloc, CountingConnection { conn, commits: 0 }, 4) {
        Ok(registry) => Ok(registry),
        Err((fault, _)) => Err(fault.into()),
    }
}

// Whether exactly this many commits were made by these calls.
fn makes_commits(
    rt: &impl Abort,
    registry: &mut RegistryOver<CountingConnection<Connection<MemStore>>>,
    acts: &[TestStep],
    commits: u64,
) -> Result<(), Fail> {
    let before = registry.table.conn.commits;
    perform_all(rt, registry, acts)?;
    if registry.table.conn.commits != before.saturating_add(commits) {
        return Err(Fail::from("another number of commits"));
    }
    Ok(())
}

#[test]
fn calls_commit_at_most_once(rt: HostRuntime) -> Result<(), Fail> {
    let mut registry = counted_registry(rt.alloc())?;
    makes_commits(&rt, &mut registry, &[TestStep::Finds(5, None)], 0)?;
    makes_commits(&rt, &mut registry, &[TestStep::Learns(known_contact(5))], 1)?;
    makes_commits(&rt, &mut registry, &[TestStep::Learns(known_sensor(5))], 1)?;
    makes_commits(
        &rt,
        &mut registry,
        &[TestStep::Relabels(5, "Door", true)],
        1,
    )?;
    makes_commits(
        &rt,
        &mut registry,
        &[TestStep::Relabels(6, "Hall", false)],
        0,
    )?;
    makes_commits(&rt, &mut registry, &[TestStep::Counts(1)], 0)?;
    makes_commits(&rt, &mut registry, &[TestStep::Forgets(5)], 1)?;
    makes_commits(&rt, &mut registry, &[TestStep::Forgets(6)], 1)?;
    let many = [TestStep::Bulk(BulkStep::LearnsContacts, 1000)];
    makes_commits(&rt, &mut registry, &many, 1000)?;
    makes_commits(
        &rt,
        &mut registry,
        &[TestStep::IsFullFor(known_contact(1000))],
        0,
    )?;
    makes_commits(
        &rt,
        &mut registry,
        &[TestStep::Learns(known_sensor(999))],
        1,
    )
}

//! The statements of a transaction.
ghost use Rattle.std.specs.Prelude.{◌≡◌, map, IsTrue, MatchResult};
ghost use Rattle.sqlite.specs.Effect.{IsDatabase};
ghost use Rattle.sqlite.specs.State.{HasCleanDisk};
ghost use Rattle.sqlite.specs.Held.{state};
ghost use Rattle.device_registry.specs.private.Transaction.{
  IsMidTransaction,
  IsMidTransactionWithTables,
  IsUncommitted,
};

use crate::catalog::list_our_tables;
use crate::table::Version;
use crate::table::statements::LIST_OBJECTS;
use sqlite::{Alter, Error, ErrorCode, Transaction};

/// Runs the texts in turn, up to the first that fails.
pub fn run_all<S: Alter>(ours: &mut Transaction<'_, S>, texts: &[&str]) -> Result<(), Error>
    requires { HasCleanDisk (state S.Store ours.old.conn.now) →
        IsTrue (state S.Store ours.old.conn.now).in_transaction }
    ensures same_reference { ours.new.conn.ghost_name ≡ ours.old.conn.ghost_name }
    ensures inside { MatchResult result
        (λ _. IsMidTransaction S.Store (map (λ text. text.now) texts.now) ours.old.conn.now ours.new.conn.now)
        (λ _. IsUncommitted (state S.Store ours.old.conn.now) (state S.Store ours.new.conn.now)) }
{
    for text in texts {
        ours.execute(text, &[])?;
    }
    Ok(())
}

/// Runs the texts, and checks that the two tables of this version are then listed with our texts. If they are not,
/// SQLite has not done what the texts say.
pub fn run_and_check_catalog<S: Alter>(
    ours: &mut Transaction<'_, S>,
    texts: &[&str],
    version: Version,
) -> Result<(), Error>
    requires inside { HasCleanDisk (state S.Store ours.old.conn.now) →
        IsTrue (state S.Store ours.old.conn.now).in_transaction }
    requires sound { (mid : _) → HasCleanDisk (state S.Store mid) → IsMidTransaction S.Store
        (map (λ text. text.now) texts.now) ours.old.conn.now mid → IsDatabase (state S.Store mid).now }
    ensures same_reference { ours.new.conn.ghost_name ≡ ours.old.conn.ghost_name }
    ensures inside { MatchResult result
        (λ _. IsMidTransactionWithTables S.Store version
        (map (λ text. text.now) texts.now) ours.old.conn.now ours.new.conn.now)
        (λ _. IsUncommitted (state S.Store ours.old.conn.now) (state S.Store ours.new.conn.now)) }
{
    run_all(ours, texts)?;
    let rows = ours.query_all(LIST_OBJECTS, &[])?;
    if !list_our_tables(&rows, version) {
        return Err(Error::SqliteFailure(ErrorCode::DatabaseCorrupt));
    }
    Ok(())
}

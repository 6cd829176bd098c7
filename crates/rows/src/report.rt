//! The report on each case.
use anyhow::Result;

/// Reports each case, and keeps whether all were correct.
#[derive(Drop)]
pub struct Report {
    all_correct: bool,
}

impl Report {
    pub(crate) fn new() -> Report {
        Report { all_correct: true }
    }

    // Reports whether the case of this name is correct.
    pub(crate) fn add_case(
        &mut self,
        rt: &HostRuntime,
        name: &str,
        is_correct: bool,
    ) -> Result<()> {
        let verdict = if is_correct { "ok" } else { "differs" };
        println!(rt; "{name} {verdict}")?;
        self.all_correct &= is_correct;
        Ok(())
    }

    // Reports whether all cases of this name are correct. The first that is not is given by its number.
    pub(crate) fn add_first_wrong(
        &mut self,
        rt: &HostRuntime,
        name: &str,
        first_wrong: Option<usize>,
    ) -> Result<()> {
        match first_wrong {
            None => self.add_case(rt, name, true),
            Some(number) => {
                let title = format!(in rt.alloc(); "{name}, at {number},")?;
                self.add_case(rt, title.as_str(), false)
            }
        }
    }

    pub(crate) fn are_all_correct(&self) -> bool {
        self.all_correct
    }
}

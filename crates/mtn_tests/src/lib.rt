//! What has to be a test: which values cross threads, and that pieces of work run at the same time. All other cases are lines of
//! data (`mtn_cases_..`), or rows of `tests/cli.sh`.
#![tactic(auto)]

#[cfg(test)]
mod gate;
#[cfg(test)]
mod jobs;
#[cfg(test)]
mod meeting;
#[cfg(test)]
mod threads;
#[cfg(test)]
mod verdicts;

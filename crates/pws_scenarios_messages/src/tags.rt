//! HMAC, keys and tags.

use pws_auth::codes::hmac;
use pws_auth::tables::{Key, KeyTable, KeysError};
use pws_base::lists::ExactCopy;
use pws_base::shapes::ReplicaId;
use pws_scenarios::layers::StepError;
use pws_scenarios::words::{array_of, bytes_of, layout_of, replica_of, spelled};
use std::alloc::Global;

/// A table of keys, once the case has made one.
#[derive(Drop)]
pub struct Tags {
    table: Option<KeyTable>,
}

/// Rows for these replicas, whose keys are 32 zero bytes.
fn rows_of(alloc: Global, replicas: &[&str]) -> Result<Vec<(ReplicaId, Key)>, StepError> {
    let mut rows = Vec::new(alloc);
    for replica in replicas {
        rows.push((replica_of(replica)?, [0; 32]))?;
    }
    Ok(rows)
}

impl Tags {
    /// No table yet.
    pub fn new() -> Tags {
        Tags { table: None }
    }

    fn table(&self) -> Result<&KeyTable, StepError> {
        match &self.table {
            Some(table) => Ok(table),
            None => Err(StepError::Expected("a table of keys before it")),
        }
    }

    fn from_seed(&mut self, alloc: Global, seed: &str, shapes: &[&str]) -> Result<(), StepError> {
        let seed = array_of(seed)?;
        match layout_of(alloc, shapes) {
            Ok(layout) => {
                let table = KeyTable::from_seed(alloc, &layout, &seed)?;
                self.table = Some(table.copy(alloc)?);
                Ok(())
            }
            Err(error) => Err(error),
        }
    }

    /// Makes the table of a replica. The words are the layout's shapes, `with`, and the replicas that have a row.
    fn from_rows(
        &mut self,
        alloc: Global,
        me: &str,
        words: &[&str],
    ) -> Result<&'static str, StepError> {
        let with = words
            .iter()
            .position(|word| *word == "with")
            .ok_or(StepError::Expected("`with` and the replicas"))?;
        let (shapes, replicas) = words.split_at(with);
        let rows = rows_of(alloc, replicas.get(1..).unwrap_or(&[]))?;
        let me = replica_of(me)?;
        let made = match layout_of(alloc, shapes) {
            Ok(layout) => KeyTable::from_rows(alloc, &layout, me, &rows),
            Err(error) => return Err(error),
        };
        match made {
            Ok(table) => {
                self.table = Some(table);
                Ok("ok")
            }
            Err(KeysError::BadKeys) => Ok("BadKeys"),
            Err(KeysError::Memory) => Err(StepError::Memory),
        }
    }

    /// Adds the tags, by rising index.
    fn seal(
        &self,
        alloc: Global,
        [sender, group, content]: [&str; 3],
        answers: &mut Vec<String>,
    ) -> Result<(), StepError> {
        let table = self.table()?;
        let sender = replica_of(sender)?;
        let group = group.parse::<u8>()?;
        if !table.can_seal(sender, group) {
            return Err(StepError::Expected("a sender and a group that have keys"));
        }
        let tags = table.seal(alloc, sender, &bytes_of(alloc, content)?, group)?;
        for tag in tags.as_slice() {
            answers.push(spelled(alloc, tag)?)?;
        }
        Ok(())
    }

    fn check(&self, alloc: Global, words: [&str; 4]) -> Result<&'static str, StepError> {
        let [sender, receiver, content, tag] = words;
        let content = bytes_of(alloc, content)?;
        let tag = array_of(tag)?;
        let (sender, receiver) = (replica_of(sender)?, replica_of(receiver)?);
        Ok(if self.table()?.check(sender, receiver, &content, &tag) {
            "right"
        } else {
            "wrong"
        })
    }

    /// Takes a step.
    pub fn step(
        &mut self,
        alloc: Global,
        words: &[&str],
        answers: &mut Vec<String>,
    ) -> Result<(), StepError> {
        match words {
            ["hmac", key, text] => {
                let tag = hmac(&bytes_of(alloc, key)?, &bytes_of(alloc, text)?);
                Ok(answers.push(spelled(alloc, &tag)?)?)
            }
            ["seed", seed, "of", shapes @ ..] => self.from_seed(alloc, seed, shapes),
            ["rows", me, "of", rest @ ..] => {
                let answer = self.from_rows(alloc, me, rest)?;
                Ok(answers.push(format!(in alloc; "{answer}")?)?)
            }
            ["seal", sender, group, content] => {
                self.seal(alloc, [sender, group, content], answers)
            }
            ["check", sender, receiver, content, tag] => {
                let answer = self.check(alloc, [sender, receiver, content, tag])?;
                Ok(answers.push(format!(in alloc; "{answer}")?)?)
            }
            _ => Err(StepError::NoSuchStep),
        }
    }
}

//! The names that jobs have taken.
ghost use Rattle.std.specs.Prelude.{◌≡◌, ◌∷◌, ◌++◌, [], List, Option, Some, OnOk, option_copied, length, is_some};
ghost use Rattle.std.specs.HashMap.{get_by_text};
ghost use Rattle.operation_laws.specs.Values.{Value};
ghost use Rattle.session_laws.specs.Answers.{Past, name_of, value_of};
ghost use Rattle.job_windows.specs.Names.{Knows};

use job_words::Name;
use std::alloc::{AllocError, Global};
use std::collections::HashMap;

/// The names of the jobs of a session so far, each with the place among these of the first job with it.
#[derive(Drop)]
pub struct Names {
    pub places: HashMap<String, usize>,
}

impl Names {
    /// No name is taken.
    pub fn new(alloc: Global) -> Names
        ensures { (held : List (Option Value)) → Knows result held [] }
    {
        Names {
            places: HashMap::new(alloc),
        }
    }

    /// The place of the job that a name stands for.
    pub fn place(&self, name: &str) -> Option<usize>
        ensures { result ≡ get_by_text self.now.places name.now }
    {
        self.places.get(name).copied()
    }

    /// Whether an earlier job has the name.
    pub fn is_taken(&self, name: &str) -> bool
        ensures { result ≡ is_some (get_by_text self.now.places name.now) }
    {
        self.places.contains_key(name)
    }

    // Keeps the place of a job under its name, unless an earlier job has the name.
    fn put(&mut self, alloc: Global, name: &str, place: usize) -> Result<(), AllocError>
        ensures { (held : List (Option Value)) (earlier : List Past) (job : Past) → Knows self.old held earlier
            → name_of job.line ≡ Some name.now → place ≡ length held
            → OnOk result (Knows self.new (held ++ Some (value_of job.came) ∷ []) (job ∷ earlier)) }
    {
        if self.places.contains_key(name) {
            return Ok(());
        }
        let name = String::from_str(alloc, name)?;
        self.places.insert(name, place)?;
        Ok(())
    }

    /// Keeps the place of a job under its name, if its line has one, unless an earlier job has the name.
    pub fn learn(
        &mut self,
        alloc: Global,
        name: Option<&Name>,
        place: usize,
    ) -> Result<(), AllocError>
        ensures { (held : List (Option Value)) (earlier : List Past) (job : Past) → Knows self.old held earlier
            → name_of job.line ≡ option_copied name.entry → place ≡ length held
            → OnOk result (Knows self.new (held ++ Some (value_of job.came) ∷ []) (job ∷ earlier)) }
    {
        match name {
            Some(name) => self.put(alloc, name.as_str(), place),
            None => Ok(()),
        }
    }
}

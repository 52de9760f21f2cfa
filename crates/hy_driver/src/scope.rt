// The names that are declared so far.
ghost use Rattle.std.specs.Prelude.{◌≡◌, [], not, length, position, IfOk};
ghost use Rattle.std.specs.List.{IsDistinct};
ghost use Rattle.std.specs.Str.{bytes_eq};
ghost use Rattle.hy_driver.specs.Scopes.{Finds};
ghost use Rattle.hy_driver.specs.Scopes.{is_known, with_name};

use hy_base::NoMemory;
use indexmap::IndexSet;
use std::alloc::Global;
use std::marker::Model;

/// The names that are declared so far, in order and each once, with a look-up that does not grow with their number.
#[derive(Drop)]
pub struct Scope {
    names: IndexSet<Vec<u8>>,
}

impl Model for Scope {
    ghost use Rattle.std.specs.Prelude.{ℕ, List, map};
    ghost use Rattle.std.specs.Coded.{coded_ℕ, coded_list};

    ghost Value = { List (List ℕ) };

    ghost coded = { coded_list (coded_list coded_ℕ) };

    ghost view = { λ scope. map (λ name. name.items) scope.names.keys };
}

impl Scope {
    /// A scope without names.
    pub fn new(alloc: Global) -> Scope
        ensures { result ≡ [] }
    {
        Scope {
            names: IndexSet::new(alloc),
        }
    }

    /// How many names there are.
    pub fn len(&self) -> usize
        ensures count { result ≡ length self.now }
        ensures once { IsDistinct bytes_eq self.now }
    {
        self.names.len()
    }

    /// Whether a name is there.
    pub fn knows(&self, name: &[u8]) -> bool
        ensures { result ≡ is_known self.now name.now }
    {
        self.names.contains(name)
    }

    /// The place of a name, which counts from 0.
    pub fn position(&self, name: &[u8]) -> Option<usize>
        ensures first { result ≡ position (bytes_eq name.now) self.now }
        ensures found { Finds name.now result self.now }
    {
        self.names.get_index_of(name)
    }

    /// Puts a name last and says `true`, or says `false` where it is there.
    pub fn declare(&mut self, alloc: Global, name: &[u8]) -> Result<bool, NoMemory>
        ensures added { IfOk result (λ added. added ≡ not (is_known self.old name.now)) }
        ensures scope { IfOk result (λ _. self.new ≡ with_name self.old name.now) }
    {
        let copy = Vec::from_slice(alloc, name)?;
        let added = self.names.insert(copy)?;
        Ok(added)
    }
}

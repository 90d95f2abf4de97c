// What names mean where they stand.
ghost use Rattle.std.specs.Prelude.{◌≡◌, [], ◌∷◌, reverse, map, drop, is_some, OnOk, OnErr, IfOk, ◌≤◌, ◌+◌};
ghost use Rattle.ppd_check_names.specs.Names.{meaning, declare, scope_of, innermost, in_innermost};
ghost use Rattle.ppd_parse.specs.Front.{looked_up};

use crate::meaning::Meaning;
use indexmap::IndexMap;
use ppd_ast::{Memory, Steps};
use std::alloc::Global;
use std::marker::Model;
use std::sync::ledger::Ledger;

/// The scopes round a place, the outermost first; contracts see the innermost first.
#[derive(Drop)]
pub struct Scopes {
    maps: Vec<IndexMap<Vec<u8>, Meaning>>,
}

impl Model for Scopes {
    ghost use Rattle.std.specs.Prelude.{List, map, reverse};
    ghost use Rattle.ppd_check_names.specs.Names.{Scope, scope_of};

    ghost Value = { List Scope };

    ghost view = { λ s. reverse (map scope_of s.maps.items) };
}

impl Scopes {
    /// No scope.
    pub fn new(alloc: Global) -> Scopes
        ensures { result ≡ [] }
    {
        Scopes {
            maps: Vec::new(alloc),
        }
    }

    /// Where the memory of the scopes comes from.
    pub fn alloc(&self) -> Global {
        *self.maps.allocator()
    }

    /// Opens a scope inside the others. `Memory` is want of memory: nothing changes.
    pub fn open<L: Ledger>(&mut self, steps: &mut Steps<L>) -> Result<(), Memory>
        ensures ok { OnOk result (self.new ≡ [] ∷ self.old) }
        ensures err { OnErr result (self.new ≡ self.old) }
        ensures cost { steps.new ≤ steps.old + 1 }
    {
        steps.tick();
        let scope = IndexMap::new(*self.maps.allocator());
        self.maps.push(scope)?;
        Ok(())
    }

    /// Leaves the innermost scope.
    pub fn close(&mut self)
        ensures { self.new ≡ drop 1 self.old }
    {
        let _ = self.maps.pop();
    }

    /// Declares a name in the innermost scope, and answers whether it was there before. `Memory` is want of memory.
    pub fn declare<L: Ledger>(
        &mut self,
        name: &[u8],
        meaning: Meaning,
        steps: &mut Steps<L>,
    ) -> Result<bool, Memory>
        ensures twice { IfOk result (λ twice. twice ≡ is_some (looked_up (innermost self.old) name.now)) }
        ensures ok { OnOk result (self.new ≡ in_innermost (declare name.now meaning) self.old) }
        ensures cost { steps.new ≤ steps.old + 3 }
    {
        let count = self.maps.len();
        if count == 0 {
            return Ok(false);
        }
        let alloc = *self.maps.allocator();
        declare_in(alloc, &mut self.maps[count - 1], name, meaning, steps)
    }

    /// What a name means here: its declaration in the innermost scope that has one.
    pub fn find<L: Ledger>(&self, name: &[u8], steps: &mut Steps<L>) -> Option<Meaning>
        ensures value { result ≡ meaning self.now name.now }
        ensures cost { steps.new ≤ steps.old + 1 }
    {
        steps.tick();
        find_in(self.maps.as_slice(), name)
    }
}

// The last map that has the name decides.
fn find_in(maps: &[IndexMap<Vec<u8>, Meaning>], name: &[u8]) -> Option<Meaning>
    ensures { result ≡ meaning (reverse (map scope_of maps.now)) name.now }
{
    for left in (0..maps.len()).rev() {
        if let Some(found) = maps[left].get(name) {
            return Some(*found);
        }
    }
    None
}

// Declares a name in one scope, and answers whether it was there before.
fn declare_in<L: Ledger>(
    alloc: Global,
    scope: &mut IndexMap<Vec<u8>, Meaning>,
    name: &[u8],
    meaning: Meaning,
    steps: &mut Steps<L>,
) -> Result<bool, Memory>
    ensures twice { IfOk result (λ twice. twice ≡ is_some (looked_up (scope_of scope.old) name.now)) }
    ensures ok { OnOk result (scope_of scope.new ≡ declare name.now meaning (scope_of scope.old)) }
    ensures err { OnErr result (scope_of scope.new ≡ scope_of scope.old) }
    ensures cost { steps.new ≤ steps.old + 3 }
{
    steps.tick();
    if found_in(scope, name).is_some() {
        return Ok(true);
    }
    steps.tick();
    let key = Vec::from_slice(alloc, name)?;
    steps.tick();
    scope.insert(key, meaning)?;
    Ok(false)
}

// What a name means in one scope.
fn found_in(scope: &IndexMap<Vec<u8>, Meaning>, name: &[u8]) -> Option<Meaning>
    ensures { result ≡ looked_up (scope_of scope.now) name.now }
{
    scope.get(name).copied()
}

ghost use Rattle.std.specs.Prelude.{◌≡◌, ◌<◌, IfOk, IfSome, Some, ℕ, List, length, is_some, slice_get, true};
ghost use Rattle.std.specs.Bool.{OnTrue};
ghost use Rattle.std.specs.List.{AllByRecursion, IsDistinct};
ghost use Rattle.std.specs.Map.{lookup, keys_of};
ghost use Rattle.std.specs.Option.{option_copied};
ghost use Rattle.cal_scan.specs.Names.{same_name};
ghost use Rattle.cal_scan.specs.Constituents.{is_element_name};
ghost use Rattle.tdb_expr.specs.declared.ranged.Ranged.{Ranged as RangedOf};
ghost use Rattle.tdb_expr.specs.Forms.{IsRanged};
ghost use Rattle.tdb_read.specs.Database.{Database, empty, same_key, with_element, with_function, with_phase, with_parameter, with_type};
ghost use Rattle.tdb_read.specs.Sound.{IsName, IsPhaseText, IsEntry, IsSound, IsTypeKind};
ghost use Rattle.indexmap.specs.IndexMap.{insert_entry};
ghost use Rattle.tdb_read.specs.Constituent.{sited, CanBeSited};
ghost use Rattle.tdb_read.specs.declared.phase.PhaseText.{PhaseText as PhaseOf};

use crate::key::Key;
use crate::parameter::ParamText;
use crate::phase::PhaseText;
use crate::type_definition::TypeText;
use cal_list::Items;
use cal_scan::Name;
use indexmap::IndexMap;
use std::alloc::{AllocError, Global};
use std::marker::Model;
use tdb_expr::Ranged;

/// Elements, functions, phases and parameters, each in the order in which its name or key was entered first, and the type
/// definitions in the order of the file. An element's number is the line of its ELEMENT command.
#[derive(Drop)]
pub struct Db {
    elements: IndexMap<Name, u32>,
    functions: IndexMap<Name, Ranged>,
    phases: IndexMap<Name, PhaseText>,
    parameters: IndexMap<Key, ParamText>,
    types: Items<TypeText>,
}

impl Model for Db {
    ghost use Rattle.tdb_read.specs.Database.{Database, database_with};
    ghost use Rattle.tdb_read.specs.Sound.{IsSound};

    ghost Value = { Database };

    ghost view = { λ d. database_with d.elements.entries d.functions.entries d.phases.entries d.parameters.entries d.types };

    ghost invariant = { λ d. IsSound (database_with d.elements.entries d.functions.entries d.phases.entries d.parameters.entries d.types) };
}

/// The phases, of which the one of this name has these constituents.
fn sited_phases(
    phases: IndexMap<Name, PhaseText>,
    name: &Name,
    sites: Items<Items<Name>>,
) -> IndexMap<Name, PhaseText>
    ensures { (text : PhaseOf) → lookup (same_name name.now) phases.entries ≡ Some text → result.entries ≡ insert_entry same_name phases.entries name.now (sited text sites) }
{
    let mut phases = phases;
    if let Some(text) = phases.get_mut(name) {
        text.sites = sites;
        return phases;
    }
    phases
}

impl Db {
    pub(crate) fn new(alloc: Global) -> Db
        ensures { result ≡ empty }
    {
        Db {
            elements: IndexMap::new(alloc),
            functions: IndexMap::new(alloc),
            phases: IndexMap::new(alloc),
            parameters: IndexMap::new(alloc),
            types: Items::new(alloc),
        }
    }

    /// What is true of every database, for proofs of other crates. The call does nothing.
    pub fn soundness(&self)
        ensures { IsSound self.now }
    {
        let _types = self.types.len();
    }

    pub fn has_element(&self, name: &Name) -> bool
        ensures known { result ≡ is_some (lookup (same_name name.now) self.now.elements) }
        ensures form { OnTrue result (is_element_name name.now ≡ true) }
    {
        self.elements.contains_key(name)
    }

    pub fn element_count(&self) -> usize
        ensures count { result ≡ length self.now.elements }
        ensures forms { AllByRecursion (λ name. is_element_name name ≡ true) (keys_of self.now.elements) }
        ensures distinct { IsDistinct same_name (keys_of self.now.elements) }
    {
        self.elements.len()
    }

    /// The name of the element at the place, and the line of its command.
    pub fn element_at(&self, place: usize) -> (&Name, u32)
        requires { place < length self.now.elements }
        ensures entry { slice_get self.now.elements place ≡ Some (result.0.now, result.1) }
        ensures form { is_element_name result.0.now ≡ true }
    {
        let (name, line) = self.elements.get_index(place).unwrap();
        (name, *line)
    }

    pub fn functions(&self) -> &IndexMap<Name, Ranged>
        ensures entries { result.now.entries ≡ self.now.functions }
        ensures ranged { (place : ℕ) (name : List ℕ) (ranged : RangedOf) → slice_get self.now.functions place ≡ Some (name, ranged) → IsRanged ranged }
    {
        &self.functions
    }

    pub fn function_count(&self) -> usize
        ensures count { result ≡ length self.now.functions }
        ensures names { AllByRecursion IsName (keys_of self.now.functions) }
        ensures distinct { IsDistinct same_name (keys_of self.now.functions) }
    {
        self.functions.len()
    }

    pub fn phase_count(&self) -> usize
        ensures count { result ≡ length self.now.phases }
        ensures names { AllByRecursion IsName (keys_of self.now.phases) }
        ensures distinct { IsDistinct same_name (keys_of self.now.phases) }
    {
        self.phases.len()
    }

    /// The name and the text of the phase at the place.
    pub fn phase_at(&self, place: usize) -> (&Name, &PhaseText)
        requires { place < length self.now.phases }
        ensures entry { slice_get self.now.phases place ≡ Some (result.0.now, result.1.now) }
        ensures name { IsName result.0.now }
        ensures text { IsPhaseText result.1.now }
    {
        self.phases.get_index(place).unwrap()
    }

    /// The text of the phase of this name.
    pub fn phase(&self, name: &Name) -> Option<&PhaseText>
        ensures text { option_copied result ≡ lookup (same_name name.now) self.now.phases }
        ensures form { IfSome result (λ text. IsPhaseText text.now) }
        ensures name { IfSome result (λ text. IsName name.now) }
    {
        self.phases.get(name)
    }

    pub fn parameter_count(&self) -> usize
        ensures count { result ≡ length self.now.parameters }
        ensures distinct { IsDistinct same_key (keys_of self.now.parameters) }
    {
        self.parameters.len()
    }

    /// The key and the text of the parameter at the place.
    pub fn parameter_at(&self, place: usize) -> (&Key, &ParamText)
        requires { place < length self.now.parameters }
        ensures entry { slice_get self.now.parameters place ≡ Some (result.0.now, result.1.now) }
        ensures form { IsEntry result.0.now result.1.now }
    {
        self.parameters.get_index(place).unwrap()
    }

    /// The text of the parameter of this key.
    pub fn parameter(&self, key: &Key) -> Option<&ParamText>
        ensures text { option_copied result ≡ lookup (same_key key.now) self.now.parameters }
        ensures ranged { IfSome result (λ text. IsRanged text.now.ranged) }
    {
        self.parameters.get(key)
    }

    /// The type definitions.
    pub fn types(&self) -> &[TypeText]
        ensures types { result.now ≡ self.now.types }
        ensures forms { AllByRecursion (λ t. IsTypeKind t.kind) result.now }
    {
        self.types.as_slice()
    }

    pub(crate) fn enter_element(self, name: Name, line: u32) -> Result<Db, AllocError>
        requires { is_element_name name ≡ true }
        ensures { IfOk result (λ d. d ≡ with_element self name line) }
    {
        let Db {
            mut elements,
            functions,
            phases,
            parameters,
            types,
        } = self;
        elements.insert(name, line)?;
        Ok(Db {
            elements,
            functions,
            phases,
            parameters,
            types,
        })
    }

    pub(crate) fn enter_function(self, name: Name, ranged: Ranged) -> Result<Db, AllocError>
        requires name { IsName name }
        requires ranged { IsRanged ranged }
        ensures { IfOk result (λ d. d ≡ with_function self name ranged) }
    {
        let Db {
            elements,
            mut functions,
            phases,
            parameters,
            types,
        } = self;
        functions.insert(name, ranged)?;
        Ok(Db {
            elements,
            functions,
            phases,
            parameters,
            types,
        })
    }

    pub(crate) fn enter_phase(self, name: Name, text: PhaseText) -> Result<Db, AllocError>
        requires name { IsName name }
        requires text { IsPhaseText text }
        ensures { IfOk result (λ d. d ≡ with_phase self name text) }
    {
        let Db {
            elements,
            functions,
            mut phases,
            parameters,
            types,
        } = self;
        phases.insert(name, text)?;
        Ok(Db {
            elements,
            functions,
            phases,
            parameters,
            types,
        })
    }

    /// With the constituents of a phase.
    pub(crate) fn enter_sites(self, name: Name, sites: Items<Items<Name>>) -> Db
        requires { CanBeSited self name sites }
        ensures { (text : PhaseOf) → lookup (same_name name) self.phases ≡ Some text → result ≡ with_phase self name (sited text sites) }
    {
        let Db {
            elements,
            functions,
            phases,
            parameters,
            types,
        } = self;
        Db {
            elements,
            functions,
            phases: sited_phases(phases, &name, sites),
            parameters,
            types,
        }
    }

    pub(crate) fn enter_parameter(self, key: Key, text: ParamText) -> Result<Db, AllocError>
        requires { IsEntry key text }
        ensures { IfOk result (λ d. d ≡ with_parameter self key text) }
    {
        let Db {
            elements,
            functions,
            phases,
            mut parameters,
            types,
        } = self;
        parameters.insert(key, text)?;
        Ok(Db {
            elements,
            functions,
            phases,
            parameters,
            types,
        })
    }

    pub(crate) fn enter_type(self, text: TypeText) -> Result<Db, AllocError>
        requires { IsTypeKind text.kind }
        ensures { IfOk result (λ d. d ≡ with_type self text) }
    {
        let Db {
            elements,
            functions,
            phases,
            parameters,
            mut types,
        } = self;
        types.push(text)?;
        Ok(Db {
            elements,
            functions,
            phases,
            parameters,
            types,
        })
    }
}

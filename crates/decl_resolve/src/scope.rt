ghost use Rattle.std.specs.Prelude.{◌≡◌};
ghost use Rattle.decl_resolve.specs.Scopes.{is_atomic_at};

use crate::scoped::Scoped;
use decl_headers::{Faults, Headers, ParamRow, number_at};
use lang_base::{Constraint, Items, Kind, Stop};
use syntax_tree::RName;

/// Where a path or a type stands, which decides when its faults are reported.
#[derive(Clone, Copy, Debug, PartialEq, Eq)]
pub enum Site {
    /// In a signature: faults are only noted.
    Signature,
    /// In a body: each path and each type tells its own faults.
    Body,
}

/// What is around a place of the text.
#[derive(Drop)]
pub struct Scope<'a> {
    pub headers: &'a Headers,
    pub class: u32,
    /// The region parameters of the method, with whether each is atomic. They are numbered after those of the class.
    pub params: &'a Scoped<bool>,
    /// The locals, formals and foreach variables, with the slot of each that may stand in an index.
    pub variables: &'a Scoped<Option<u32>>,
    /// The local regions, with the numbers of their declarations.
    pub regions: &'a Scoped<u32>,
    /// The constraints in force.
    pub given: &'a [Constraint],
    /// The constraints of each class, by its number.
    pub classes_given: &'a [Items<Constraint>],
    pub site: Site,
}

/// A region parameter in scope.
#[derive(Clone, Copy, Debug, PartialEq, Eq)]
pub struct ParamFound {
    pub number: u32,
    pub atomic: bool,
}

impl Scope<'_> {
    ghost use Rattle.std.specs.Prelude.{◌≡◌, [], OnOk};
    ghost use Rattle.std.specs.Option.{option_map_or};
    ghost use Rattle.decl_headers.specs.Faults.{all_noted, settled};
    ghost use Rattle.decl_resolve.specs.Classes.{params_in, constraints_in};
    ghost use Rattle.decl_resolve.specs.Paths.{region_meant, region_faults, is_atomic_region};
    ghost use Rattle.decl_resolve.specs.Scopes.{plain_scope, method_param, param_meant};
    ghost use Rattle.decl_resolve.specs.Telling.{reported_at};

    /// Tells a noted fault where the place is in a body.
    #[tactic(auto, using(crate::proofs::Reported::settling))]
    pub fn settle(&self, faults: &mut Faults) -> Result<(), Stop>
        ensures result { result ≡ settled (reported_at self.now.site faults.old) }
        ensures same { OnOk result (faults.new ≡ faults.old) }
    {
        match self.site {
            Site::Signature => Ok(()),
            Site::Body => faults.settle(),
        }
    }

    /// The region parameter of that name.
    pub fn param(&self, name: u32) -> Option<ParamFound>
        ensures { result ≡ param_meant (plain_scope self.now) name }
    {
        match self.headers.param(self.class, name) {
            Some(number) => Some(ParamFound {
                number,
                atomic: is_atomic_at(self.class_params(self.class), number as usize),
            }),
            None => self.method_param(name),
        }
    }

    fn method_param(&self, name: u32) -> Option<ParamFound>
        ensures { result ≡ method_param (plain_scope self.now) name }
    {
        let place = self.params.place(name)?;
        let atomic = self.params.values().get(place).copied()?;
        let number = number_at(self.class_params(self.class).len() + place);
        Some(ParamFound { number, atomic })
    }

    /// The region parameters of a class.
    pub fn class_params(&self, class: u32) -> &[ParamRow]
        ensures { result.now ≡ params_in self.now.headers.now class }
    {
        match self.headers.header(class) {
            Some(header) => header.params.as_slice(),
            None => &[],
        }
    }

    /// The region parameters of a class that is there.
    pub fn known_params(&self, class: Option<u32>) -> &[ParamRow]
        ensures { result.now ≡ option_map_or (params_in self.now.headers.now) class [] }
    {
        match class {
            Some(class) => self.class_params(class),
            None => &[],
        }
    }

    /// The constraints of a class.
    pub fn class_given(&self, class: u32) -> &[Constraint]
        ensures { result.now ≡ constraints_in self.now.classes_given.now class }
    {
        match self.classes_given.get(class as usize) {
            Some(given) => given.as_slice(),
            None => &[],
        }
    }

    /// The number of a region name. One that isn't there is a fault.
    pub fn region_name(&self, faults: &mut Faults, name: RName) -> Option<u32>
        ensures meant { result ≡ region_meant self.now.headers.now self.now.class name }
        ensures faults { faults.new ≡ all_noted faults.old (region_faults self.now.headers.now self.now.class name) }
    {
        let Some(second) = name.second else {
            let found = self.headers.region(self.class, name.first.name);
            if found.is_none() {
                faults.note(Kind::Unknown, name.first.place);
            }
            return found;
        };
        let Some(class) = self.headers.class(name.first.name) else {
            faults.note(Kind::Unknown, name.first.place);
            return None;
        };
        let found = self.headers.region(class, second.name);
        if found.is_none() {
            faults.note(Kind::Unknown, second.place);
        }
        found
    }

    /// Whether a region name is declared atomic.
    pub fn is_atomic_name(&self, number: u32) -> bool
        ensures { result ≡ is_atomic_region self.now.headers.now number }
    {
        self.headers
            .atomic_names()
            .get(number as usize)
            .copied()
            .unwrap_or(false)
    }
}

/// Whether the parameter at a position is atomic.
pub fn is_atomic_at(params: &[ParamRow], at: usize) -> bool
    ensures { result ≡ is_atomic_at params.now at }
{
    match params.get(at) {
        Some(param) => param.atomic,
        None => false,
    }
}

ghost use Rattle.std.specs.Prelude.{◌≡◌, replicate, IfOk, OnOk};
ghost use Rattle.decl_headers.specs.Around.{around, none_around, method_named, second_method, method_entered, method_faults, member_entered, member_faults, members_entered, members_faults, method_left, methods_left, class_entered, class_faults, member_left, class_left, after_step, step_faults, way_faults};
ghost use Rattle.decl_headers.specs.Faults.{all_noted};
ghost use Rattle.decl_headers.specs.Members.{marks, is_free, entered, left, all_entered, all_left, second_names, param_names, formal_names, misnamed};

use crate::faults::Faults;
use crate::forest::Step;
use lang_base::{Kind, NoMemory};
use std::alloc::Global;
use syntax_tree::{Class, Formal, Member, Method, MethodResult, Named, ParamTree};

/// Names that are declared, each under the number of what declares it. Names are positions below a count.
#[derive(Drop)]
struct Declared {
    /// The number plus one, and 0 for a name that isn't declared.
    owners: Vec<u32>,
}

impl Declared {
    fn new(alloc: Global, names: usize) -> Result<Declared, NoMemory>
        ensures { IfOk result (λ declared. marks declared ≡ replicate names 0) }
    {
        Ok(Declared {
            owners: vec![in alloc; 0; names]?,
        })
    }

    /// Declares a name, and tells whether nothing declares it yet.
    fn enter(&mut self, name: u32, owner: u32) -> bool
        ensures free { result ≡ is_free (marks self.old) name }
        ensures entered { marks self.new ≡ entered (marks self.old) name owner }
    {
        match self.owners.get_mut(name as usize) {
            Some(mark) if *mark == 0 => {
                *mark = owner.saturating_add(1);
                true
            }
            _ => false,
        }
    }

    /// Takes back a name that this owner declared.
    fn leave(&mut self, name: u32, owner: u32)
        ensures { marks self.new ≡ left (marks self.old) name owner }
    {
        if let Some(mark) = self.owners.get_mut(name as usize) {
            if *mark == owner.saturating_add(1) {
                *mark = 0;
            }
        }
    }
}

/// What is declared around the member that is looked at, each kind of name by itself.
#[derive(Drop)]
struct Visible {
    regions: Declared,
    fields: Declared,
    methods: Declared,
    constructors: Declared,
    params: Declared,
    formals: Declared,
}

/// In lists that belong to one class or one method: declared by the class, and by the method.
const BY_CLASS: u32 = 0;

const BY_METHOD: u32 = 1;

/// Notes each second declaration of a name, inherited ones included, and each constructor that isn't named as
/// its class. The steps go through all classes.
#[tactic(auto, using(crate::proofs::Noting::noting))]
pub fn check_members(
    alloc: Global,
    classes: &[Class],
    names: usize,
    steps: &[Step],
    faults: &mut Faults,
) -> Result<(), NoMemory>
    ensures { OnOk result (faults.new ≡ all_noted faults.old (way_faults classes.now (none_around names) steps.now)) }
{
    let mut visible = Visible::new(alloc, names)?;
    for step in steps {
        visible.take_step(classes, *step, faults);
    }
    Ok(())
}

impl Visible {
    fn new(alloc: Global, names: usize) -> Result<Visible, NoMemory>
        ensures { IfOk result (λ visible. around visible ≡ none_around names) }
    {
        Ok(Visible {
            regions: Declared::new(alloc, names)?,
            fields: Declared::new(alloc, names)?,
            methods: Declared::new(alloc, names)?,
            constructors: Declared::new(alloc, names)?,
            params: Declared::new(alloc, names)?,
            formals: Declared::new(alloc, names)?,
        })
    }

    fn take_step(&mut self, classes: &[Class], step: Step, faults: &mut Faults)
        ensures visible { around self.new ≡ after_step classes.now (around self.old) step }
        ensures faults { faults.new ≡ all_noted faults.old (step_faults classes.now (around self.old) step) }
    {
        match step {
            Step::Enter(number) => {
                if let Some(class) = classes.get(number as usize) {
                    self.enter_class(class, number, faults);
                }
            }
            Step::Leave(number) => {
                if let Some(class) = classes.get(number as usize) {
                    self.leave_class(class, number);
                }
            }
        }
    }

    #[tactic(auto, using(crate::proofs::Noting::noting))]
    fn enter_class(&mut self, class: &Class, number: u32, faults: &mut Faults)
        ensures visible { around self.new ≡ class_entered (around self.old) number class.now }
        ensures faults { faults.new ≡ all_noted faults.old (class_faults (around self.old) number class.now) }
    {
        let params = class.params.list.as_slice();
        enter_params(&mut self.params, params, BY_CLASS, faults);
        self.enter_members(class, number, faults);
        self.leave_methods(class.members.as_slice());
        leave_params(&mut self.params, params, BY_CLASS);
    }

    #[tactic(auto, using(crate::proofs::Noting::noting))]
    fn enter_members(&mut self, class: &Class, number: u32, faults: &mut Faults)
        ensures visible { around self.new ≡ members_entered (around self.old) number class.now.members }
        ensures faults { faults.new ≡ all_noted faults.old (members_faults (around self.old) class.now number class.now.members) }
    {
        for member in class.members.as_slice() {
            self.enter_member(class, member, number, faults);
        }
    }

    #[tactic(auto, using(crate::proofs::Noting::noting))]
    fn enter_member(&mut self, class: &Class, member: &Member, number: u32, faults: &mut Faults)
        ensures visible { around self.new ≡ member_entered (around self.old) number member.now }
        ensures faults { faults.new ≡ all_noted faults.old (member_faults (around self.old) class.now number member.now) }
    {
        match member {
            Member::Regions { names, .. } => {
                enter_names(&mut self.regions, names.as_slice(), number, faults);
            }
            Member::Field(field) => {
                if !self.fields.enter(field.name, number) {
                    faults.note(Kind::Duplicate, field.place);
                }
            }
            Member::Method(method) => {
                self.enter_method(class, method, faults);
            }
        }
    }

    #[tactic(auto, using(crate::proofs::Noting::noting))]
    fn enter_method(&mut self, class: &Class, method: &Method, faults: &mut Faults)
        ensures visible { around self.new ≡ method_entered (around self.old) method.now }
        ensures faults { faults.new ≡ all_noted faults.old (method_faults (around self.old) class.now method.now) }
    {
        note_misnamed(class, method, faults);
        self.enter_method_name(method, faults);
        let params = method.params.list.as_slice();
        enter_params(&mut self.params, params, BY_METHOD, faults);
        leave_params(&mut self.params, params, BY_METHOD);
        let formals = method.formals.as_slice();
        enter_formals(&mut self.formals, formals, BY_METHOD, faults);
        leave_formals(&mut self.formals, formals, BY_METHOD);
    }

    #[tactic(auto, using(crate::proofs::Noting::noting))]
    fn enter_method_name(&mut self, method: &Method, faults: &mut Faults)
        ensures visible { around self.new ≡ method_named (around self.old) method.now }
        ensures faults { faults.new ≡ all_noted faults.old (second_method (around self.old) method.now) }
    {
        let is_new = match method.result {
            MethodResult::Constructor => self.constructors.enter(method.name, BY_CLASS),
            _ => self.methods.enter(method.name, BY_CLASS),
        };
        if !is_new {
            faults.note(Kind::Duplicate, method.place);
        }
    }

    fn leave_methods(&mut self, members: &[Member])
        ensures { around self.new ≡ methods_left (around self.old) members.now }
    {
        for member in members {
            self.leave_method(member);
        }
    }

    fn leave_method(&mut self, member: &Member)
        ensures { around self.new ≡ method_left (around self.old) member.now }
    {
        if let Member::Method(method) = member {
            self.methods.leave(method.name, BY_CLASS);
            self.constructors.leave(method.name, BY_CLASS);
        }
    }

    /// Takes back the names that the class hands down to what extends it.
    fn leave_class(&mut self, class: &Class, number: u32)
        ensures { around self.new ≡ class_left (around self.old) number class.now.members }
    {
        for member in class.members.as_slice() {
            self.leave_member(member, number);
        }
    }

    fn leave_member(&mut self, member: &Member, number: u32)
        ensures { around self.new ≡ member_left (around self.old) number member.now }
    {
        match member {
            Member::Regions { names, .. } => {
                leave_names(&mut self.regions, names.as_slice(), number);
            }
            Member::Field(field) => self.fields.leave(field.name, number),
            Member::Method(_) => {}
        }
    }
}

/// Notes a constructor that isn't named as its class.
#[tactic(auto, using(crate::proofs::Noting::noting))]
fn note_misnamed(class: &Class, method: &Method, faults: &mut Faults)
    ensures { faults.new ≡ all_noted faults.old (misnamed class.now method.now) }
{
    if matches!(method.result, MethodResult::Constructor) && method.name != class.name {
        faults.note(Kind::Unknown, method.place);
    }
}

#[tactic(auto, using(crate::proofs::Noting::noting))]
fn enter_names(declared: &mut Declared, names: &[Named], owner: u32, faults: &mut Faults)
    ensures entered { marks declared.new ≡ all_entered (marks declared.old) owner names.now }
    ensures faults { faults.new ≡ all_noted faults.old (second_names (marks declared.old) owner names.now) }
{
    for named in names {
        if !declared.enter(named.name, owner) {
            faults.note(Kind::Duplicate, named.place);
        }
    }
}

fn leave_names(declared: &mut Declared, names: &[Named], owner: u32)
    ensures { marks declared.new ≡ all_left (marks declared.old) owner names.now }
{
    for named in names {
        declared.leave(named.name, owner);
    }
}

#[tactic(auto, using(crate::proofs::Noting::noting))]
fn enter_params(declared: &mut Declared, params: &[ParamTree], owner: u32, faults: &mut Faults)
    ensures entered { marks declared.new ≡ all_entered (marks declared.old) owner (param_names params.now) }
    ensures faults { faults.new ≡ all_noted faults.old (second_names (marks declared.old) owner (param_names params.now)) }
{
    for param in params {
        if !declared.enter(param.name, owner) {
            faults.note(Kind::Duplicate, param.place);
        }
    }
}

fn leave_params(declared: &mut Declared, params: &[ParamTree], owner: u32)
    ensures { marks declared.new ≡ all_left (marks declared.old) owner (param_names params.now) }
{
    for param in params {
        declared.leave(param.name, owner);
    }
}

#[tactic(auto, using(crate::proofs::Noting::noting))]
fn enter_formals(declared: &mut Declared, formals: &[Formal], owner: u32, faults: &mut Faults)
    ensures entered { marks declared.new ≡ all_entered (marks declared.old) owner (formal_names formals.now) }
    ensures faults { faults.new ≡ all_noted faults.old (second_names (marks declared.old) owner (formal_names formals.now)) }
{
    for formal in formals {
        if !declared.enter(formal.name, owner) {
            faults.note(Kind::Duplicate, formal.place);
        }
    }
}

fn leave_formals(declared: &mut Declared, formals: &[Formal], owner: u32)
    ensures { marks declared.new ≡ all_left (marks declared.old) owner (formal_names formals.now) }
{
    for formal in formals {
        declared.leave(formal.name, owner);
    }
}

ghost use Rattle.std.specs.Prelude.{◌≡◌, ◌||◌, false, None, Some, IfOk, IfErr, OnOk};
ghost use Rattle.std.specs.List.{list_all, list_any, flat_map};
ghost use Rattle.std.specs.Option.{option_map};
ghost use Rattle.lang_base.specs.Refused.{IfRefused};
ghost use Rattle.decl_headers.specs.Faults.{all_noted};
ghost use Rattle.decl_resolve.specs.Paths.{is_specified, is_plain, misfits};
ghost use Rattle.decl_resolve.specs.Begun.{meant};
ghost use Rattle.decl_resolve.specs.Reading.{head_param, head_local, head_meant, head_faults, head_atomic, path_meant, path_faults};
ghost use Rattle.decl_resolve.specs.Index.{plain_index};
ghost use Rattle.decl_resolve.specs.Scopes.{plain_scope};
ghost use Rattle.decl_resolve.specs.Telling.{reported_at};

use crate::index::IndexNames;
use crate::scope::{ParamFound, Scope};
use decl_headers::Faults;
use lang_base::{Elem, Elems, Head, Index, Kind, NoMemory, Rpl, Stop};
use std::alloc::Global;
use syntax_tree::{ElemTree, Named, RName, RplHead, RplTree};

/// What is asked of a region path where it stands.
#[derive(Clone, Copy, Debug, PartialEq, Eq)]
pub struct Need {
    /// It has neither `*` nor `[?]`.
    pub full: bool,
    /// It is atomic.
    pub atomic: bool,
}

/// A path as far as it is read.
#[derive(Drop)]
struct Reading {
    rpl: Rpl,
    /// All its names are known, and its indices are index variables.
    known: bool,
    /// Whether it is atomic as it is so far, where that is known.
    atomic: Option<bool>,
    /// An index of it is a local or a formal that isn't an index variable.
    misplaced: bool,
}

/// Reads a region path. None where a name of it isn't known, or an index of it isn't an index variable.
pub fn path(
    alloc: Global,
    scope: &Scope,
    faults: &mut Faults,
    tree: &RplTree,
    need: Need,
    around: &IndexNames,
) -> Result<Option<Rpl>, Stop>
    ensures meant { IfOk result (λ rpl. rpl ≡ path_meant (plain_scope scope.now) (plain_index around.now) tree.now) }
    ensures noted { OnOk result (faults.new ≡ all_noted faults.old (path_faults (plain_scope scope.now) (plain_index around.now) need tree.now)) }
    ensures unreported { OnOk result (reported_at scope.now.site (all_noted faults.old (path_faults (plain_scope scope.now) (plain_index around.now) need tree.now)) ≡ None) }
    ensures reported { IfErr result (λ stop. IfRefused stop (λ refusal. reported_at scope.now.site (all_noted faults.old (path_faults (plain_scope scope.now) (plain_index around.now) need tree.now)) ≡ Some refusal)) }
{
    let mut reading = begin(alloc, scope, faults, tree.head)?;
    reading.read_all(scope, faults, tree.elems.as_slice(), around)?;
    if reading.misfits(need, tree.elems.as_slice()) {
        faults.note(Kind::RegionArgs, tree.place);
    }
    scope.settle(faults)?;
    Ok(reading.meant())
}

/// Whether a written path has neither `*` nor `[?]`.
fn is_full(elems: &[ElemTree]) -> bool
    ensures { result ≡ list_all is_specified elems.now }
{
    elems
        .iter()
        .all(|elem| !matches!(elem, ElemTree::Star | ElemTree::Any))
}

/// The path up to its first element.
fn begin(
    alloc: Global,
    scope: &Scope,
    faults: &mut Faults,
    head: RplHead,
) -> Result<Reading, NoMemory>
    ensures meant { IfOk result (λ reading. meant reading ≡ head_meant (plain_scope scope.now) head) }
    ensures atomic { IfOk result (λ reading. reading.atomic ≡ head_atomic (plain_scope scope.now) head) }
    ensures misplaced { IfOk result (λ reading. reading.misplaced ≡ false) }
    ensures faults { OnOk result (faults.new ≡ all_noted faults.old (head_faults (plain_scope scope.now) head)) }
{
    match head {
        RplHead::Root => Ok(Reading::new(alloc, Head::Root, false)),
        RplHead::Name(name) => begin_name(alloc, scope, faults, name),
    }
}

fn begin_name(
    alloc: Global,
    scope: &Scope,
    faults: &mut Faults,
    name: RName,
) -> Result<Reading, NoMemory>
    ensures meant { IfOk result (λ reading. meant reading ≡ head_meant (plain_scope scope.now) (RplHead.Name name)) }
    ensures atomic { IfOk result (λ reading. reading.atomic ≡ head_atomic (plain_scope scope.now) (RplHead.Name name)) }
    ensures misplaced { IfOk result (λ reading. reading.misplaced ≡ false) }
    ensures faults { OnOk result (faults.new ≡ all_noted faults.old (head_faults (plain_scope scope.now) (RplHead.Name name))) }
{
    if let Some(param) = head_param(scope, name) {
        let head = Head::Param(param.number);
        return Ok(Reading::new(alloc, head, param.atomic));
    }
    let mut reading = Reading::new(alloc, Head::Root, false);
    match head_local(scope, name) {
        Some(decl) => reading.push(Elem::Local(decl, 0))?,
        None => reading.name(scope, faults, name)?,
    }
    Ok(reading)
}

/// The region parameter that a path may begin with.
fn head_param(scope: &Scope, name: RName) -> Option<ParamFound>
    ensures { result ≡ head_param (plain_scope scope.now) name }
{
    match name.second {
        None => scope.param(name.first.name),
        Some(_) => None,
    }
}

/// The local region that it may begin with.
fn head_local(scope: &Scope, name: RName) -> Option<u32>
    ensures { result ≡ head_local (plain_scope scope.now) name }
{
    match name.second {
        None => scope.regions.get(name.first.name).copied(),
        Some(_) => None,
    }
}

/// Whether it is known of a path whether it is atomic, and it isn't.
fn is_plain(atomic: Option<bool>) -> bool
    ensures { result ≡ is_plain atomic }
{
    match atomic {
        Some(atomic) => !atomic,
        None => false,
    }
}

impl Reading {
    ghost use Rattle.std.specs.Prelude.{◌≡◌, ◌||◌, false, [], None, Some, option_map, OnOk};
    ghost use Rattle.std.specs.List.{list_any, flat_map, fold};
    ghost use Rattle.lang_base.specs.declared.elems.Elem.TheVariants.{Name, At};
    ghost use Rattle.decl_headers.specs.Faults.{all_noted};
    ghost use Rattle.decl_resolve.specs.Begun.{meant};
    ghost use Rattle.decl_resolve.specs.Paths.{misfits, region_meant, region_faults};
    ghost use Rattle.decl_resolve.specs.Reading.{region_atomic, atomic_with, index_meant, elem_meant, elem_faults, is_misplaced, longer_if, goes_on};
    ghost use Rattle.decl_resolve.specs.Index.{plain_index};
    ghost use Rattle.decl_resolve.specs.Scopes.{plain_scope};

    fn new(alloc: Global, head: Head, atomic: bool) -> Reading
        ensures meant { meant result ≡ Some (record { head = head; elems = [] }) }
        ensures atomic { result.atomic ≡ Some atomic }
        ensures misplaced { result.misplaced ≡ false }
    {
        Reading {
            rpl: Rpl {
                head,
                elems: Elems::new(alloc),
            },
            known: true,
            atomic: Some(atomic),
            misplaced: false,
        }
    }

    /// The path, where it is known.
    fn meant(self) -> Option<Rpl>
        ensures { result ≡ meant self }
    {
        let Reading { rpl, known, .. } = self;
        if known { Some(rpl) } else { None }
    }

    /// Whether the path, which has these elements, isn't what is asked.
    fn misfits(&self, need: Need, elems: &[ElemTree]) -> bool
        ensures { result ≡ misfits need elems.now self.now.atomic self.now.misplaced }
    {
        need.full && !is_full(elems) || need.atomic && is_plain(self.atomic) || self.misplaced
    }

    fn read_all(
        &mut self,
        scope: &Scope,
        faults: &mut Faults,
        elems: &[ElemTree],
        around: &IndexNames,
    ) -> Result<(), NoMemory>
        ensures meant { OnOk result (meant self.new ≡ goes_on (plain_scope scope.now) (plain_index around.now) (meant self.old) elems.now) }
        ensures atomic { OnOk result (self.new.atomic ≡ fold (atomic_with (plain_scope scope.now)) self.old.atomic elems.now) }
        ensures misplaced { OnOk result (self.new.misplaced ≡ (self.old.misplaced || list_any (is_misplaced (plain_scope scope.now) (plain_index around.now)) elems.now)) }
        ensures faults { OnOk result (faults.new ≡ all_noted faults.old (flat_map (elem_faults (plain_scope scope.now) (plain_index around.now)) elems.now)) }
    {
        for elem in elems {
            self.read(scope, faults, *elem, around)?;
        }
        Ok(())
    }

    fn read(
        &mut self,
        scope: &Scope,
        faults: &mut Faults,
        elem: ElemTree,
        around: &IndexNames,
    ) -> Result<(), NoMemory>
        ensures meant { OnOk result (meant self.new ≡ longer_if (meant self.old) (elem_meant (plain_scope scope.now) (plain_index around.now) elem)) }
        ensures atomic { OnOk result (self.new.atomic ≡ atomic_with (plain_scope scope.now) self.old.atomic elem) }
        ensures misplaced { OnOk result (self.new.misplaced ≡ (self.old.misplaced || is_misplaced (plain_scope scope.now) (plain_index around.now) elem)) }
        ensures faults { OnOk result (faults.new ≡ all_noted faults.old (elem_faults (plain_scope scope.now) (plain_index around.now) elem)) }
    {
        match elem {
            ElemTree::Name(name) => self.name(scope, faults, name),
            ElemTree::Star => {
                self.atomic = Some(false);
                self.push(Elem::Star)
            }
            ElemTree::Any => self.push(Elem::Any),
            ElemTree::Lit(k) => self.push(Elem::At(Index::Literal(k))),
            ElemTree::Index(named) => self.index(scope, faults, named, around),
        }
    }

    /// Goes on with an element.
    fn push(&mut self, elem: Elem) -> Result<(), NoMemory>
        ensures meant { OnOk result (meant self.new ≡ longer_if (meant self.old) (Some elem)) }
        ensures atomic { self.new.atomic ≡ self.old.atomic }
        ensures misplaced { self.new.misplaced ≡ self.old.misplaced }
    {
        self.rpl.elems.push(elem)
    }

    fn name(&mut self, scope: &Scope, faults: &mut Faults, name: RName) -> Result<(), NoMemory>
        ensures meant { OnOk result (meant self.new ≡ longer_if (meant self.old) (option_map (λ number. Name number) (region_meant scope.now.headers.now scope.now.class name))) }
        ensures atomic { self.new.atomic ≡ region_atomic (plain_scope scope.now) name }
        ensures misplaced { self.new.misplaced ≡ self.old.misplaced }
        ensures faults { faults.new ≡ all_noted faults.old (region_faults scope.now.headers.now scope.now.class name) }
    {
        match scope.region_name(faults, name) {
            Some(number) => {
                self.atomic = Some(scope.is_atomic_name(number));
                self.push(Elem::Name(number))
            }
            None => {
                self.atomic = None;
                self.known = false;
                Ok(())
            }
        }
    }

    fn index(
        &mut self,
        scope: &Scope,
        faults: &mut Faults,
        named: Named,
        around: &IndexNames,
    ) -> Result<(), NoMemory>
        ensures meant { OnOk result (meant self.new ≡ longer_if (meant self.old) (option_map (λ index. At index) (index_meant (plain_scope scope.now) (plain_index around.now) named.name))) }
        ensures atomic { self.new.atomic ≡ self.old.atomic }
        ensures misplaced { self.new.misplaced ≡ (self.old.misplaced || is_misplaced (plain_scope scope.now) (plain_index around.now) (ElemTree.Index named)) }
        ensures faults { faults.new ≡ all_noted faults.old (elem_faults (plain_scope scope.now) (plain_index around.now) (ElemTree.Index named)) }
    {
        if let Some(index) = around.find(named.name) {
            return self.push(Elem::At(index));
        }
        match scope.variables.get(named.name).copied() {
            Some(Some(slot)) => self.push(Elem::At(Index::Variable(slot))),
            Some(None) => {
                self.misplaced = true;
                self.known = false;
                Ok(())
            }
            None => {
                faults.note(Kind::Unknown, named.place);
                self.known = false;
                Ok(())
            }
        }
    }
}

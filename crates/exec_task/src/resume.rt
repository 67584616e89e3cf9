ghost use Rattle.std.specs.Prelude.{◌≡◌, ℕ, map, All, IfOk, OnErr, slice_get, Some};
ghost use Rattle.lang_base.specs.declared.place.Place.{Place};
ghost use Rattle.lang_meaning.specs.Actions as meaning;
ghost use Rattle.code_instrs.specs.Machine.{exec, next, called, created, makes_array, forked, spread, joins, joins_site, site_of, line_before};
ghost use Rattle.code_instrs.specs.Plain.{plain_code, plain_site, body_at};
ghost use Rattle.exec_task.specs.Answers.{LeadsTo, Leads, IsIn, IsCounted, below_top};
ghost use Rattle.exec_task.specs.Halts.{IsWidthBounded};
ghost use Rattle.exec_task.specs.Names.{names_of};
ghost use Rattle.exec_task.specs.Steps.{HasNext};
ghost use Rattle.exec_task.specs.Tasks.{plain_level, plain_answer, state_in};

use crate::action::Answer;
use crate::calls::{CallSite, after_call, after_creation};
use crate::joins::site_before;
use crate::task::{Level, Standing};
use code_instrs::{Code, Instr, Site};
use exec_frames::Stack;
use lang_base::{NoMemory, Place};
use std::alloc::Global;

/// Goes on after the answer to the action at which an instruction waits. When memory runs out, all is as it was.
pub fn resume(
    alloc: Global,
    code: &Code,
    line: (Instr, Place),
    level: &mut Level,
    callers: &mut Stack<Level>,
    answer: Answer,
) -> Result<Standing, NoMemory>
    requires next { HasNext level.old }
    requires few { All IsWidthBounded code.now.sites }
    requires counted { IsCounted answer }
    ensures ok { IfOk result (λ s. (task : ℕ) → LeadsTo (exec (names_of task) (plain_code code.now) line.1 line.0 (plain_level level.old) (map plain_level callers.old)) (plain_answer answer) (state_in s level.new callers.new)) }
    ensures err { OnErr result ((level.new ≡ level.old) × (callers.new ≡ callers.old)) }
{
    let place = line.1;
    match line.0 {
        Instr::Get(_) => level.after_read(place, 1, &answer),
        Instr::Put(_) => Ok(level.after_write(place, 2, &answer)),
        Instr::Elem => level.after_read(place, 2, &answer),
        Instr::PutElem => Ok(level.after_write(place, 3, &answer)),
        Instr::Length => level.after_length(&answer),
        Instr::Print => Ok(level.after_print()),
        Instr::Text(_) | Instr::Exit => Ok(level.after_nothing()),
        // in front of an entry it has rested
        Instr::Enter(_) => Ok(Standing::Rested),
        Instr::Join => Ok(level.after_join(code, &answer)),
        Instr::Fork(site) => level.after_fork_of(code, site),
        Instr::Spread(site) => level.after_spread_of(code, site),
        Instr::Array(site) => level.after_array(code, site, &answer),
        Instr::Call(site) => after_call_of(alloc, code, site, level, callers, answer),
        Instr::New(site) => after_new(alloc, code, site, level, callers, &answer),
        _ => Ok(Standing::Nowhere),
    }
}

impl Level {
    /// After a value is printed.
    fn after_print(&mut self) -> Standing
        requires { HasNext self.old }
        ensures { IsIn (next (plain_level self.old) (below_top 1 (plain_level self.old))) result self.new }
    {
        self.pass(1);
        Standing::At
    }

    /// After an action that takes no value.
    pub fn after_nothing(&mut self) -> Standing
        requires { HasNext self.old }
        ensures { IsIn (next (plain_level self.old) (plain_level self.old).stack) result self.new }
    {
        self.pass(0);
        Standing::At
    }

    /// After the begin of a branch, or the join of all.
    fn after_join(&mut self, code: &Code, answer: &Answer) -> Standing
        requires { HasNext self.old }
        ensures { Leads (joins (plain_code code.now) (site_of (line_before (body_at (plain_code code.now) self.old.body).lines self.old.at)) (plain_level self.old)) (plain_answer answer.now) result self.new }
    {
        let Some(site) = site_before(code, self.body, self.at) else {
            return Standing::Nowhere;
        };
        let Some(site) = code.sites.get(site) else {
            return Standing::Nowhere;
        };
        self.after_join_at(site, answer)
    }

    /// The same, by the site.
    fn after_join_at(&mut self, site: &Site, answer: &Answer) -> Standing
        requires { HasNext self.old }
        ensures { Leads (joins_site (Some (plain_site site.now)) (plain_level self.old)) (plain_answer answer.now) result self.new }
    {
        match site {
            Site::Fork { bodies, copies, .. } => {
                self.after_join_fork(bodies.len(), copies.as_slice(), answer)
            }
            Site::Spread { .. } => self.after_join_spread(answer),
            Site::Block { .. } | Site::Call { .. } | Site::New { .. } | Site::Array { .. } => {
                Standing::Nowhere
            }
        }
    }

    fn after_fork_of(&mut self, code: &Code, site: usize) -> Result<Standing, NoMemory>
        requires next { HasNext self.old }
        requires few { All IsWidthBounded code.now.sites }
        ensures ok { IfOk result (λ s. (place : Place) (a : meaning.Answer ℕ (ℕ × ℕ)) → Leads (forked place (slice_get (plain_code code.now).sites site) (plain_level self.old)) a s self.new) }
        ensures err { OnErr result (self.new ≡ self.old) }
    {
        let Some(Site::Fork { bodies, .. }) = code.sites.get(site) else {
            return Ok(Standing::Nowhere);
        };
        self.after_fork(bodies.len())
    }

    fn after_spread_of(&mut self, code: &Code, site: usize) -> Result<Standing, NoMemory>
        requires { HasNext self.old }
        ensures ok { IfOk result (λ s. (place : Place) (a : meaning.Answer ℕ (ℕ × ℕ)) → Leads (spread place (slice_get (plain_code code.now).sites site) (plain_level self.old)) a s self.new) }
        ensures err { OnErr result (self.new ≡ self.old) }
    {
        let Some(Site::Spread { .. }) = code.sites.get(site) else {
            return Ok(Standing::Nowhere);
        };
        self.after_spread()
    }

    fn after_array(
        &mut self,
        code: &Code,
        site: usize,
        answer: &Answer,
    ) -> Result<Standing, NoMemory>
        requires { HasNext self.old }
        ensures ok { IfOk result (λ s. (task : ℕ) (place : Place) → Leads (makes_array (names_of task) place (slice_get (plain_code code.now).sites site) (plain_level self.old)) (plain_answer answer.now) s self.new) }
        ensures err { OnErr result (self.new ≡ self.old) }
    {
        let Some(Site::Array { .. }) = code.sites.get(site) else {
            return Ok(Standing::Nowhere);
        };
        self.after_making(1, answer)
    }
}

fn after_call_of(
    alloc: Global,
    code: &Code,
    site: usize,
    level: &mut Level,
    callers: &mut Stack<Level>,
    answer: Answer,
) -> Result<Standing, NoMemory>
    requires { HasNext level.old }
    ensures ok { IfOk result (λ s. (task : ℕ) (place : Place) → LeadsTo (called (names_of task) (plain_code code.now) place (slice_get (plain_code code.now).sites site) (plain_level level.old) (map plain_level callers.old)) (plain_answer answer) (state_in s level.new callers.new)) }
    ensures err { OnErr result ((level.new ≡ level.old) × (callers.new ≡ callers.old)) }
{
    let Some(
        Site::Call {
            class,
            row,
            formals,
            regions,
        },
    ) = code.sites.get(site)
    else {
        return Ok(Standing::Nowhere);
    };
    let call = CallSite {
        class: *class,
        row: *row,
        formals: *formals,
        regions,
    };
    after_call(alloc, code, level, callers, &call, answer)
}

fn after_new(
    alloc: Global,
    code: &Code,
    site: usize,
    level: &mut Level,
    callers: &mut Stack<Level>,
    answer: &Answer,
) -> Result<Standing, NoMemory>
    requires { HasNext level.old }
    ensures ok { IfOk result (λ s. (task : ℕ) (place : Place) → LeadsTo (created (names_of task) (plain_code code.now) place (slice_get (plain_code code.now).sites site) (plain_level level.old) (map plain_level callers.old)) (plain_answer answer.now) (state_in s level.new callers.new)) }
    ensures err { OnErr result ((level.new ≡ level.old) × (callers.new ≡ callers.old)) }
{
    let Some(
        Site::New {
            class,
            formals,
            regions,
        },
    ) = code.sites.get(site)
    else {
        return Ok(Standing::Nowhere);
    };
    after_creation(
        alloc, code, level, callers, *class, *formals, regions, answer,
    )
}

ghost use Rattle.std.specs.Prelude.{◌≡◌, ◌<◌, ◌∷◌, [], length, suc, true, map, OnOk, IfOk};
ghost use Rattle.lang_base.specs.declared.place.Place.{Place};
ghost use Rattle.code_instrs.specs.declared.instr.Instr.TheVariants as i;
ghost use Rattle.code_scheme.specs.Pieces.{nothing, line, with_site, with_text, with_branches};
ghost use Rattle.code_instrs.specs.Plain.{plain_site, of_branch};
ghost use Rattle.lang_typed.specs.Plain.{plain_stmt};
ghost use Rattle.code_compile.specs.Emitted.{BothClosed, emitted_of, Emits, patched, plain_line, instr_at, next_of, member_begun, without_lines};

use crate::line::{Line, Sited};
use crate::pending::Pending;
use code_instrs::{Instr, Site};
use lang_base::{Bytes, Items, NoMemory, Place};
use lang_typed::Stmt;
use std::alloc::Global;
use std::mem;

/// What is emitted so far: the lines of the body at work, the sites and texts of the whole program, and the branches
/// of the member at work.
#[derive(Drop)]
pub struct Emitter<'p> {
    pub lines: Items<Line>,
    pub sites: Items<Site>,
    pub texts: Items<Bytes>,
    pub branches: Items<Pending<'p>>,
    /// The number of the body of the first branch.
    pub first: usize,
}

impl<'p> Emitter<'p> {
    /// The place of the next line.
    pub fn here(&self) -> usize
        ensures { result ≡ length (emitted_of self.now).piece.lines }
    {
        self.lines.len()
    }

    /// An instruction.
    pub fn line(&mut self, place: Place, instr: Instr) -> Result<(), NoMemory>
        ensures { OnOk result (Emits (emitted_of self.old) (λ k p. line instr place nothing) (emitted_of self.new)) }
    {
        self.lines.push(Line { instr, place })
    }

    /// Another instruction at a place.
    pub fn patch(&mut self, at: usize, place: Place, instr: Instr)
        requires { at < length (emitted_of self.old).piece.lines }
        ensures { emitted_of self.new ≡ patched (emitted_of self.old) at (record { instr = instr; place = place }) }
    {
        self.lines.set(at, Line { instr, place });
    }

    /// An instruction with a site of its own.
    pub fn sited(&mut self, place: Place, kind: Sited, site: Site) -> Result<(), NoMemory>
        ensures { OnOk result (Emits (emitted_of self.old) (λ k p. with_site (plain_site site) (line (instr_at kind k.site) place nothing)) (emitted_of self.new)) }
    {
        let number = self.sites.len();
        self.sites.push(site)?;
        self.line(place, kind.at(number))
    }

    /// A printed text.
    pub fn text(&mut self, place: Place, text: Bytes) -> Result<(), NoMemory>
        ensures { OnOk result (Emits (emitted_of self.old) (λ k p. with_text text (line (i.Text k.text) place nothing)) (emitted_of self.new)) }
    {
        let number = self.texts.len();
        self.texts.push(text)?;
        self.line(place, Instr::Text(number))
    }

    /// The number that the body of the next branch will have.
    pub fn next_body(&self) -> Result<usize, NoMemory>
        ensures { IfOk result (λ number. number ≡ (next_of (emitted_of self.now)).body) }
    {
        // More bodies than numbers have no room in memory.
        self.first.checked_add(self.branches.len()).ok_or(NoMemory)
    }

    /// A branch of the construct with the next site, which waits for its body.
    pub fn branch(
        &mut self,
        number: usize,
        takes: Option<usize>,
        stmt: &'p Stmt,
    ) -> Result<(), NoMemory>
        ensures { OnOk result (Emits (emitted_of self.old) (λ k p. with_branches (record { title = of_branch k.site number; takes = takes; stmt = plain_stmt stmt.now } ∷ []) nothing) (emitted_of self.new)) }
    {
        let site = self.sites.len();
        self.branches.push(Pending {
            site,
            number,
            takes,
            stmt,
        })
    }

    /// A test whose target isn't known yet, and its place.
    pub fn hole(&mut self, place: Place) -> Result<usize, NoMemory>
        ensures at { IfOk result (λ at. at ≡ length (emitted_of self.old).piece.lines) }
        ensures ok { OnOk result (Emits (emitted_of self.old) (λ k p. line (i.Unless 0) place nothing) (emitted_of self.new)) }
    {
        let at = self.here();
        self.line(place, Instr::Unless(0))?;
        Ok(at)
    }

    /// A jump whose target isn't known yet, and its place.
    pub fn jump(&mut self, place: Place) -> Result<usize, NoMemory>
        ensures at { IfOk result (λ at. at ≡ length (emitted_of self.old).piece.lines) }
        ensures ok { OnOk result (Emits (emitted_of self.old) (λ k p. line (i.Jump 0) place nothing) (emitted_of self.new)) }
    {
        let at = self.here();
        self.line(place, Instr::Jump(0))?;
        Ok(at)
    }

    /// The target of a test is the next line.
    pub fn unless_here(&mut self, place: Place, test: usize)
        requires { test < length (emitted_of self.old).piece.lines }
        ensures { emitted_of self.new ≡ patched (emitted_of self.old) test (record { instr = i.Unless (length (emitted_of self.old).piece.lines); place = place }) }
    {
        let end = self.here();
        self.patch(test, place, Instr::Unless(end));
    }

    /// The target of a jump is the next line.
    pub fn jump_here(&mut self, place: Place, jump: usize)
        requires { jump < length (emitted_of self.old).piece.lines }
        ensures { emitted_of self.new ≡ patched (emitted_of self.old) jump (record { instr = i.Jump (length (emitted_of self.old).piece.lines); place = place }) }
    {
        let end = self.here();
        self.patch(jump, place, Instr::Jump(end));
    }

    /// After the right operand of `&&`: where the test fails, `false` stands for the whole.
    pub fn close_both(&mut self, place: Place, test: usize) -> Result<(), NoMemory>
        requires { test < length (emitted_of self.old).piece.lines }
        ensures { OnOk result (BothClosed (emitted_of self.old) test place (emitted_of self.new)) }
    {
        let jump = self.jump(place)?;
        let other = self.here();
        self.line(place, Instr::Bool(false))?;
        self.jump_here(place, jump);
        self.patch(test, place, Instr::Unless(other));
        Ok(())
    }

    /// After the left operand of `||`: where the test succeeds, `true` stands for the whole. It answers the place of
    /// the jump past the right operand.
    pub fn open_either(&mut self, place: Place) -> Result<usize, NoMemory>
        ensures at { IfOk result (λ at. at ≡ suc (suc (length (emitted_of self.old).piece.lines))) }
        ensures ok { OnOk result (Emits (emitted_of self.old) (λ k p. line (i.Unless (suc (suc (suc p)))) place (line (i.Bool true) place (line (i.Jump 0) place nothing))) (emitted_of self.new)) }
    {
        let test = self.hole(place)?;
        self.line(place, Instr::Bool(true))?;
        let jump = self.jump(place)?;
        self.unless_here(place, test);
        Ok(jump)
    }

    /// Nothing is emitted yet.
    pub fn new(alloc: Global) -> Emitter<'p>
        ensures { emitted_of result ≡ record { first = 0; piece = nothing } }
    {
        Emitter {
            lines: Items::new(alloc),
            sites: Items::new(alloc),
            texts: Items::new(alloc),
            branches: Items::new(alloc),
            first: 0,
        }
    }

    /// A member begins, whose body has this number. No branch waits.
    pub fn begin_member(&mut self, body: usize) -> Result<(), NoMemory>
        ensures { OnOk result (emitted_of self.new ≡ member_begun (emitted_of self.old) body) }
    {
        // More bodies than numbers have no room in memory.
        self.first = body.checked_add(1).ok_or(NoMemory)?;
        self.branches.truncate(0);
        Ok(())
    }

    /// Takes the lines of the body at work, which is done.
    pub fn take_lines(&mut self, alloc: Global) -> Items<Line>
        ensures lines { map plain_line result ≡ (emitted_of self.old).piece.lines }
        ensures taken { emitted_of self.new ≡ without_lines (emitted_of self.old) }
    {
        mem::replace(&mut self.lines, Items::new(alloc))
    }
}

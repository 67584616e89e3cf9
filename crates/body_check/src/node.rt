use decl_headers::Faults;
use lang_base::{Kind, Place, Stop};
use syntax_tree::Stmt;

/// What we stand in.
#[derive(Clone, Copy)]
pub struct Around {
    /// The method has a result.
    pub has_result: bool,
    /// A branch or an atomic block, which no `return` leaves.
    pub enclosed: bool,
}

impl Around {
    ghost use Rattle.std.specs.Prelude.{◌≡◌, true, false};

    /// In the body of a method.
    pub fn method(has_result: bool) -> Around
        ensures { result ≡ record { has_result = has_result; enclosed = false } }
    {
        Around {
            has_result,
            enclosed: false,
        }
    }

    /// In a branch or an atomic block there.
    pub fn inside(self) -> Around
        ensures { result ≡ record self { enclosed = true } }
    {
        Around {
            enclosed: true,
            ..self
        }
    }
}

/// A statement as a node of the tree, with the faults of its own that were noted so far.
#[derive(Drop)]
pub struct Node {
    pub place: Place,
    faults: Faults,
}

impl Node {
    ghost use Rattle.std.specs.Prelude.{◌≡◌, ◌≢◌, None, Some, OnOk};
    ghost use Rattle.lang_base.specs.Refused.{IfRefused};
    ghost use Rattle.decl_headers.specs.Faults.{settled};
    ghost use Rattle.body_check.specs.Noting.{fault_of, node_at, settled_node, with_fault, with_fault_if, with_found};

    /// A statement after one that doesn't complete is a fault.
    pub fn of(stmt: &Stmt, follows: bool) -> Node
        ensures { result ≡ node_at stmt.now.place follows }
    {
        let mut node = Node {
            place: stmt.place,
            faults: Faults::by_kind(),
        };
        node.note_if(Kind::Return, follows);
        node
    }

    /// Notes a fault at the statement's own place, where it is there.
    #[tactic(auto, using(crate::proofs::Noting::noted_reported))]
    pub fn note_if(&mut self, kind: Kind, is_there: bool)
        ensures node { self.new ≡ with_fault_if self.old kind is_there }
        ensures clean { fault_of self.new ≡ None → fault_of self.old ≡ None }
    {
        if is_there {
            self.faults.note(kind, self.place);
        }
    }

    /// Notes a fault at the statement's own place, where one was found.
    pub fn note_found(&mut self, kind: Option<Kind>)
        ensures { self.new ≡ with_found self.old kind }
    {
        if let Some(kind) = kind {
            self.faults.note(kind, self.place);
        }
    }

    /// Notes a fault at another place.
    #[tactic(auto, using(crate::proofs::Noting::noted_reported))]
    pub fn note_at(&mut self, kind: Kind, place: Place)
        ensures node { self.new ≡ with_fault self.old kind place }
        ensures reported { fault_of self.new ≢ None }
    {
        self.faults.note(kind, place);
    }

    /// The refusal of the statement, where a fault is at another place.
    pub fn refused_at(self, kind: Kind, place: Place) -> Stop
        ensures { IfRefused result (λ refusal. fault_of (with_fault self kind place) ≡ Some refusal) }
    {
        let mut node = self;
        node.note_at(kind, place);
        match node.settle() {
            Err(stop) => stop,
            Ok(()) => unreachable!(),
        }
    }

    /// Reports the fault that comes first, if there is one.
    pub fn settle(&mut self) -> Result<(), Stop>
        ensures result { result ≡ settled (fault_of self.old) }
        ensures clean { OnOk result (fault_of self.old ≡ None) }
        ensures forgotten { self.new ≡ settled_node self.old }
    {
        self.faults.settle()
    }
}

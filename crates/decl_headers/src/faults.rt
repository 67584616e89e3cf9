ghost use Rattle.std.specs.Prelude.{◌≡◌, None};
ghost use Rattle.decl_headers.specs.Faults.{comes_first, reported, none_by, noted, forgotten, settled};

use lang_base::{Kind, Place, Refusal, Stop};

/// Which of two faults is reported.
#[derive(Clone, Copy, Debug, PartialEq, Eq)]
enum Order {
    /// The one with the earlier place; at one place the kind that is listed first.
    Place,
    /// The one whose kind is listed first; of one kind the one with the earlier place.
    Kind,
}

/// The faults that a pass notes, of which it tells one.
#[derive(Clone, Copy, Debug, PartialEq, Eq)]
pub struct Faults {
    order: Order,
    kept: Option<Refusal>,
}

/// Whether the first fault is reported rather than the second.
fn comes_first(order: Order, a: Refusal, b: Refusal) -> bool
    ensures { result ≡ comes_first order a b }
{
    let (place, kind) = (a.place.cmp(&b.place), a.kind.cmp(&b.kind));
    let found = match order {
        Order::Place => place.then(kind),
        Order::Kind => kind.then(place),
    };
    found.is_lt()
}

impl Faults {
    /// No faults yet. The one with the least place is reported, at one place the one whose kind `Kind` lists first.
    pub fn by_place() -> Faults
        ensures { result ≡ none_by Order.Place }
    {
        Faults {
            order: Order::Place,
            kept: None,
        }
    }

    /// No faults yet. The one whose kind `Kind` lists first is reported, of one kind the one with the least place.
    pub fn by_kind() -> Faults
        ensures { result ≡ none_by Order.Kind }
    {
        Faults {
            order: Order::Kind,
            kept: None,
        }
    }

    /// Notes a fault.
    #[tactic(auto, unfolding(crate::specs::Faults::noted))]
    pub fn note(&mut self, kind: Kind, place: Place)
        ensures { self.new ≡ noted self.old (record { kind = kind; place = place }) }
    {
        let fault = Refusal { kind, place };
        let is_reported = match self.kept {
            None => true,
            Some(kept) => comes_first(self.order, fault, kept),
        };
        if is_reported {
            self.kept = Some(fault);
        }
    }

    /// Tells the fault, where one was noted, and forgets it.
    pub fn settle(&mut self) -> Result<(), Stop>
        ensures result { result ≡ settled (reported self.old) }
        ensures forgotten { self.new ≡ forgotten self.old }
    {
        match self.kept.take() {
            None => Ok(()),
            Some(fault) => Err(Stop::Refused(fault)),
        }
    }
}
